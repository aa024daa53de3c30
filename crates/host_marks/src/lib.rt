// Survey messages as numbers, and the marks of a list, for a C host.
#![tactic(auto)]

ghost use Rattle.wire.specs.Slices.{buffer};
ghost use Rattle.host_marks.specs.Told.{MessageTold, MarksTold};

// How many numbers tell of a list's marks.
pub const MARKS: usize = 3;

// Reads a survey message: 0, and how many numbers it has at the start of told; or the number of the refusal, and then nothing is written.
#[unsafe(no_mangle)]
pub extern "C" fn qm_read_message(message: &[u8], numbers: &mut [i64], told: &mut [u64]) -> u32
    ensures { MessageTold message.now numbers.old numbers.new (buffer told) result }
{
    if told.len() < 1 {
        return 13;
    }
    match lmcp_reader::read_message(message, numbers) {
        Ok(n) => {
            words::put_word(told, 0, n as u64);
            0
        }
        Err(refusal) => refusal.number(),
    }
}

// The marks of a list that was read: 0, and at the start of told whether it is a PitList, its tile, and how many rows there are. Where the rows or told have no
// room it is 13, and nothing is written.
#[unsafe(no_mangle)]
pub extern "C" fn qm_marks(numbers: &[i64], rows: &mut [i64], told: &mut [u64]) -> u32
    ensures { MarksTold numbers.now rows.old rows.new (buffer told) result }
{
    if told.len() < MARKS {
        return 13;
    }
    match mark_rows::marks_of(numbers, rows) {
        Ok(Some(marks)) => {
            let said = [1, marks.tile, marks.rows as u64];
            words::put_words(told, 0, &said);
            0
        }
        Ok(None) => {
            let said = [0u64; MARKS];
            words::put_words(told, 0, &said);
            0
        }
        Err(refusal) => refusal.number(),
    }
}
