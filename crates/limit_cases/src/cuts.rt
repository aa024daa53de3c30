// The cutter, and the parts of what it makes. A case is: the letter of the name and its length, the payload's length, M, the datagram asked for,
// and the length of the output; of the parts, how much of the datagram is read.
use cutter::Cut;
use output::Output;
use refusals::Refusal;

// One byte more than a payload may have.
pub(crate) const PAYLOAD: usize = datagram::MAX_PAYLOAD + 1;

// A payload, all of the letter A, and room for any datagram of it.
#[derive(Drop)]
pub(crate) struct Cutting {
    pub(crate) payload: [u8; PAYLOAD],
    pub(crate) d: [u8; cutter::MOST_SIZE],
}

impl Cutting {
    // The first `room` bytes get the datagram that a case asks for.
    fn made(&mut self, case: &[u8], room: usize) -> Result<Cut, Refusal> {
        let letter = (wire::number(case, 0, 8) % 256) as u8;
        let name = [letter; 65];
        let size = room.min(cutter::MOST_SIZE);
        let payload = wire::part(&self.payload, 0, crate::number(case, 16));
        let d = &mut self.d[..];
        cutter::cut_datagram(
            wire::part(&name, 0, crate::number(case, 8)),
            payload,
            7,
            crate::number(case, 24),
            crate::number(case, 32),
            &mut d[..size],
        )
    }

    // The number of datagrams and the length of the one asked for, or the refusal.
    pub(crate) fn cut(&mut self, out: &mut Output, case: &[u8]) {
        match self.made(case, crate::number(case, 40)) {
            Ok(cut) => {
                out.pour_counted(b"datagrams ", cut.count as u64);
                out.pour_counted(b" length ", cut.len as u64);
            }
            Err(refusal) => crate::pour_refused(out, refusal),
        }
    }

    // The name part and the payload part of what was made, or of the front of it. Of nothing, where it was refused.
    pub(crate) fn parts(&mut self, out: &mut Output, case: &[u8]) {
        let made = self.made(case, cutter::MOST_SIZE);
        let len = made.map_or(0, |cut| cut.len.min(crate::number(case, 40)));
        let d = wire::part(&self.d, 0, len);
        out.pour(b"name:");
        out.pour_hex(parts::name_part(d));
        out.pour(b" payload:");
        out.pour_hex(parts::payload_part(d));
    }
}
