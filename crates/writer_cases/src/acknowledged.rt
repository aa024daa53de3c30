// Acknowledge blocks. A case is: the first number, how far each lies above the one before it (past the largest it begins anew at 0), how many there
// are, and the output's length.
use output::Output;

// More numbers than any list has whose blocks are singles.
const NUMBERS: usize = 8192;

fn rise(list: &mut [u64], first: u64, step: u64) {
    let mut next = first;
    for x in list {
        *x = next;
        next = next.wrapping_add(step);
    }
}

pub(crate) fn written(out: &mut Output, case: &[u8], room: &mut [u8]) {
    let mut numbers = [0u64; NUMBERS];
    let count = crate::number(case, 16).min(NUMBERS);
    let list = &mut numbers[..count];
    rise(list, wire::number(case, 0, 8), wire::number(case, 8, 8));
    let size = crate::number(case, 24).min(room.len());
    let written = ack_writer::write_blocks(list, &mut room[..size]);
    crate::pour_written(out, room, 0, written);
}
