// Acknowledge blocks for a C host: whether they acknowledge a number, and the blocks of a list of numbers.
#![tactic(auto)]

ghost use Rattle.wire.specs.Slices.{buffer};
ghost use Rattle.host_acks.specs.Told.{AskTold, WriteTold};

use refusals::Refusal;

// Whether blocks acknowledge a number: 0, and 1 or 0 at the start of told; or the number of the refusal, and then nothing is written.
#[unsafe(no_mangle)]
pub extern "C" fn qm_acks_ask(blocks: &[u8], number: u64, told: &mut [u64]) -> u32
    ensures { AskTold blocks.now number (buffer told) result }
{
    if told.len() < 1 {
        return Refusal::NoRoom.number();
    }
    match ack_blocks::ask(blocks, number) {
        Ok(found) => {
            words::put_word(told, 0, u64::from(found));
            0
        }
        Err(refusal) => refusal.number(),
    }
}

// The blocks of numbers, sorted and distinct, at the start of an output: 0, and how many bytes they take at the start of told; or the number of the refusal, and
// then nothing is written.
#[unsafe(no_mangle)]
pub extern "C" fn qm_acks_write(numbers: &[u64], out: &mut [u8], told: &mut [u64]) -> u32
    ensures { WriteTold numbers.now (buffer out) (buffer told) result }
{
    if told.len() < 1 {
        return Refusal::NoRoom.number();
    }
    match ack_writer::write_blocks(numbers, out) {
        Ok(n) => {
            words::put_word(told, 0, n as u64);
            0
        }
        Err(refusal) => refusal.number(),
    }
}
