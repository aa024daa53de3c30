// Writes a log into a lent output, entry by entry: each call answers the place after what it wrote, and a refusal writes nothing.
#![tactic(auto)]

ghost use Rattle.std.specs.Prelude.{◌≡◌, ◌+◌, ◌≤◌, length};
ghost use Rattle.wire.specs.Overlay.{overlay};
ghost use Rattle.datagram.specs.Limits.{max_datagram};
ghost use Rattle.flight_log.specs.Entries.{entry_bytes, entry_of};
ghost use Rattle.log_append.specs.Writes.{Began, Appended};

use refusals::Refusal;

// The head of a log at the start of the output: edition 2, with its payload limit.
pub fn begin(out: &mut [u8], limit: u64) -> Result<usize, Refusal>
    ensures { Began out.old limit result out.new }
{
    if (datagram::MAX_PAYLOAD as u64) < limit {
        return Err(Refusal::LimitTooLarge);
    }
    let n = 1 + varint::seven_length(limit);
    if out.len() < n {
        return Err(Refusal::NoRoom);
    }
    out[0] = flight_log::EDITION;
    varint::put_seven(out, 1, limit);
    Ok(n)
}

// How many bytes an entry takes.
fn entry_length(sender: u64, tick: u64, datagram: &[u8]) -> usize
    requires { length datagram.now ≤ max_datagram }
    ensures { result ≡ length (entry_bytes (entry_of sender tick datagram.now)) }
{
    let n = datagram.len();
    varint::seven_length(sender) + varint::seven_length(tick) + varint::seven_length(n as u64) + n
}

// An entry at a place that has room for it.
fn put_entry(out: &mut [u8], at: usize, sender: u64, tick: u64, datagram: &[u8])
    requires { at + length (entry_bytes (entry_of sender tick datagram.now)) ≤ length out.old }
    ensures { out.new ≡ overlay out.old at (entry_bytes (entry_of sender tick datagram.now)) }
{
    let a = at + varint::seven_length(sender);
    let b = a + varint::seven_length(tick);
    let n = datagram.len() as u64;
    let c = b + varint::seven_length(n);
    varint::put_seven(out, at, sender);
    varint::put_seven(out, a, tick);
    varint::put_seven(out, b, n);
    wire::put_bytes(out, c, datagram);
}

// One entry at a place.
pub fn append(
    out: &mut [u8],
    at: usize,
    sender: u64,
    tick: u64,
    datagram: &[u8],
) -> Result<usize, Refusal>
    ensures { Appended out.old at (entry_of sender tick datagram.now) result out.new }
{
    if datagram::MAX_DATAGRAM < datagram.len() {
        return Err(Refusal::EntryTooLong);
    }
    let n = entry_length(sender, tick, datagram);
    if wire::room(out.len(), at) < n {
        return Err(Refusal::NoRoom);
    }
    put_entry(out, at, sender, tick, datagram);
    Ok(at + n)
}
