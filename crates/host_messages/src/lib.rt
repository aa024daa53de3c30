// Survey messages written out of numbers, for a C host.
#![tactic(auto)]

ghost use Rattle.wire.specs.Slices.{buffer};
ghost use Rattle.host_messages.specs.Told.{MessageTold};

// Writes the message of numbers to the start of an output, with its checksum where sum is not 0: 0, and how many bytes it has at the start of told; or the number of
// the refusal, and then nothing is written.
#[unsafe(no_mangle)]
pub extern "C" fn qm_write_message(
    numbers: &[i64],
    sum: u32,
    out: &mut [u8],
    told: &mut [u64],
) -> u32
    ensures { MessageTold numbers.now sum (buffer out) (buffer told) result }
{
    if told.len() < 1 {
        return 13;
    }
    match lmcp_writer::write_message(numbers, 0 < sum, out) {
        Ok(n) => {
            words::put_word(told, 0, n as u64);
            0
        }
        Err(refusal) => refusal.number(),
    }
}
