// Reads a log entry by entry, at a place of the lent bytes.
ghost use Rattle.std.specs.Prelude.{◌≡◌, ◌≤◌, length, drop};
ghost use Rattle.flight_log.specs.Editions.{limited, limit_in, limits_in_lem};
ghost use Rattle.flight_log.specs.First.{first_told};
ghost use Rattle.flight_log.specs.Listed.{datagram_in};
ghost use Rattle.flight_log.specs.Said.{first_of, first_in, step_of, next_at, read_at, place_after_lem};
ghost use Rattle.flight_log.specs.Step.{step_told};

use refusals::Refusal;

// The limits of a log's fragments: the largest payload, and the most fragments of a message.
#[derive(Clone, Copy, Debug, PartialEq, Eq)]
pub struct Limits {
    pub payload: usize,
    pub fragments: u32,
}

// An entry: its numbers, where its datagram lies and how long it is, and the place after it.
#[derive(Clone, Copy, Debug, PartialEq, Eq)]
pub struct EntryAt {
    pub sender: u64,
    pub tick: u64,
    pub at: usize,
    pub len: usize,
    pub next: usize,
}

// The head of edition 2 with this limit; the entries begin at a place.
fn within(log: &[u8], limit: u64, at: usize) -> Result<(usize, Limits), Refusal>
    requires { at ≤ length log.now }
    ensures { first_told result ≡ first_of log.now (limited limit (drop at log.now)) }
{
    if (datagram::MAX_PAYLOAD as u64) < limit {
        return Err(Refusal::LimitTooLarge);
    }
    let limits = Limits {
        payload: limit as usize,
        fragments: datagram::MAX_FRAGMENTS,
    };
    Ok((at, limits))
}

// The limit of edition 2 at a place.
fn limit_at(log: &[u8], at: usize) -> Result<(usize, Limits), Refusal>
    ensures { first_told result ≡ first_of log.now (limit_in (drop at log.now)) }
{
    let (limit, next) = varint::read_seven(log, at)?;
    within(log, limit, next)
}

// Judges the head of a log: where its first entry begins, and its limits.
pub fn first_entry(log: &[u8]) -> Result<(usize, Limits), Refusal>
    ensures { first_told result ≡ first_in log.now }
{
    if log.len() < 1 {
        return Err(Refusal::LogCut);
    }
    if log[0] == super::EDITION_ONE {
        let limits = Limits {
            payload: super::PAYLOAD_ONE,
            fragments: super::FRAGMENTS_ONE,
        };
        return Ok((1, limits));
    }
    if log[0] == super::EDITION {
        return limit_at(log, 1);
    }
    Err(Refusal::UnknownEdition)
}

// The limits of a log. One that is refused at its head has no entries, and no fragment is within its limits.
pub fn limits_in(log: &[u8]) -> Limits
    ensures { result ≡ limits_in_lem log.now }
{
    let Ok((_, limits)) = first_entry(log) else {
        return Limits {
            payload: 0,
            fragments: 0,
        };
    };
    limits
}

// The entry with these numbers, whose datagram of n bytes lies at a place.
fn datagram_at(
    log: &[u8],
    at: usize,
    sender: u64,
    tick: u64,
    n: u64,
) -> Result<Option<EntryAt>, Refusal>
    requires { at ≤ length log.now }
    ensures { step_told result ≡ step_of log.now (datagram_in sender tick n (drop at log.now)) }
{
    if (datagram::MAX_DATAGRAM as u64) < n {
        return Err(Refusal::EntryTooLong);
    }
    let len = n as usize;
    if wire::room(log.len(), at) < len {
        return Err(Refusal::LogCut);
    }
    let next = at + len;
    Ok(Some(EntryAt {
        sender,
        tick,
        at,
        len,
        next,
    }))
}

// The entry at a place, or none at the log's end.
pub fn next_entry(log: &[u8], at: usize) -> Result<Option<EntryAt>, Refusal>
    ensures { step_told result ≡ next_at log.now at }
{
    if log.len() <= at {
        return Ok(None);
    }
    let (sender, to_tick) = varint::read_seven(log, at)?;
    let (tick, to_length) = varint::read_seven(log, to_tick)?;
    let (n, start) = varint::read_seven(log, to_length)?;
    datagram_at(log, start, sender, tick, n)
}

// What an open reader finds at its place: at 0 the head is judged first.
pub fn read_on(log: &[u8], at: usize) -> Result<Option<EntryAt>, Refusal>
    ensures { step_told result ≡ read_at log.now at }
{
    if at != 0 {
        return next_entry(log, at);
    }
    let (start, _) = first_entry(log)?;
    next_entry(log, start)
}

// Where an open reader goes on: after an entry, and otherwise it stays.
pub fn place_after(at: usize, step: Result<Option<EntryAt>, Refusal>) -> usize
    ensures { result ≡ place_after_lem at (step_told step) }
{
    match step {
        Ok(Some(entry)) => entry.next,
        Ok(None) => at,
        Err(_) => at,
    }
}
