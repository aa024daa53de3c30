// Message blocks and packets of MossUDP. Every message is so many letters A.
use crate::Writing;
use output::Output;

// A message block at a place of the output. A case is: the message's length, the place, and the output's length.
pub(crate) fn laid(out: &mut Output, case: &[u8], writing: &mut Writing) {
    let place = crate::number(case, 8);
    let size = crate::number(case, 16).min(crate::ROOM);
    let message = wire::part(&writing.letters, 0, crate::number(case, 0));
    let room = &mut writing.room[..];
    let laid = moss_writer::lay_block(&mut room[..size], place, message);
    crate::pour_written(out, room, place, laid);
}

// So many blocks of one message, one behind the other, up to the first that is refused. Answers the place after the last.
fn lay_blocks(blocks: &mut [u8], message: &[u8], count: usize) -> usize {
    let mut at: usize = 0;
    for _ in 0..count {
        let Ok(n) = moss_writer::lay_block(blocks, at, message) else {
            return at;
        };
        at += n;
    }
    at
}

// Where message n of a packet stands.
fn pour_place(out: &mut Output, packet: &[u8], n: usize) {
    match moss::message_place(packet, n) {
        Ok(place) => {
            out.pour_counted(b"place ", place.at as u64);
            out.pour_counted(b" length ", place.len as u64);
        }
        Err(refusal) => crate::pour_refused(out, refusal),
    }
}

// A packet, and a message of its front. A case is: the type, the messages' length and how many there are, the output's length, how much of the
// packet is read, and which message.
pub(crate) fn written(out: &mut Output, case: &[u8], writing: &mut Writing) {
    let kind = (wire::number(case, 0, 8) % 256) as u8;
    let message = wire::part(&writing.letters, 0, crate::number(case, 8));
    let end = lay_blocks(&mut writing.blocks, message, crate::number(case, 16));
    let size = crate::number(case, 24).min(crate::ROOM);
    let blocks = wire::part(&writing.blocks, 0, end);
    let room = &mut writing.room[..];
    let session = [71u8; moss::SESSION];
    match moss_writer::write_packet(session, 7, kind, blocks, &mut room[..size]) {
        Ok(n) => {
            let front = n.min(crate::number(case, 32));
            pour_place(out, wire::part(room, 0, front), crate::number(case, 40));
        }
        Err(refusal) => crate::pour_refused(out, refusal),
    }
}
