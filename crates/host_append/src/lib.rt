// Keeping a flight: a log in lent memory, entry by entry.
#![tactic(auto)]

ghost use Rattle.std.specs.Prelude.{◌≡◌};
ghost use Rattle.flight_log.specs.Entries.{entry_of};
ghost use Rattle.log_append.specs.Writes.{says};
ghost use Rattle.host_append.specs.Told.{length_code, BeginTold, AppendTold};
ghost use Rattle.host_append.specs.Inside.{Spans};

use refusals::Refusal;

// How many bytes were written at a place, times 2^32, or the number of the refusal.
fn told(at: usize, written: Result<usize, Refusal>) -> u64
    requires { Spans at (says written) }
    ensures { result ≡ length_code at (says written) }
{
    match written {
        Ok(next) => ((next - at) as u64) * 4294967296,
        Err(refusal) => refusal.number() as u64,
    }
}

// Begins a log with that payload limit at the start of out: the length of its head times 2^32, or the number of the refusal.
#[unsafe(no_mangle)]
pub extern "C" fn qm_log_begin(out: &mut [u8], limit: u64) -> u64
    ensures { BeginTold out.old limit result out.new }
{
    told(0, log_append::begin(out, limit))
}

// Writes one entry at a place of out: its length times 2^32, or the number of the refusal.
#[unsafe(no_mangle)]
pub extern "C" fn qm_log_append(
    out: &mut [u8],
    at: usize,
    sender: u64,
    tick: u64,
    datagram: &[u8],
) -> u64
    ensures { AppendTold out.old at (entry_of sender tick datagram.now) result out.new }
{
    told(at, log_append::append(out, at, sender, tick, datagram))
}
