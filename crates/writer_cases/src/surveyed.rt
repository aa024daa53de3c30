// Survey messages. A case is: 0 to leave the checksum zero, else it is calculated; the output's length; and the list's numbers.
use output::Output;

// As many numbers as a case may have.
const NUMBERS: usize = 512;

// The numbers of a case, from its third on.
fn take(list: &mut [i64], case: &[u8]) {
    for (i, x) in list.iter_mut().enumerate() {
        *x = wire::number(wire::part(case, 16, case.len()), 8 * i, 8).cast_signed();
    }
}

pub(crate) fn written(out: &mut Output, case: &[u8], room: &mut [u8]) {
    let mut numbers = [0i64; NUMBERS];
    let count = (case.len() / 8).saturating_sub(2).min(NUMBERS);
    let list = &mut numbers[..count];
    take(list, case);
    let size = crate::number(case, 8).min(room.len());
    let calculate = crate::number(case, 0) != 0;
    let made = lmcp_writer::write_message(list, calculate, &mut room[..size]);
    crate::pour_written(out, room, 0, made);
}
