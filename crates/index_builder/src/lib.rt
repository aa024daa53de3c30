// The index of a log: worked out afresh, or extended by the entries that were added. The log is gone over first to count and judge, and then to
// enter, so that a refusal leaves the index.
#![tactic(auto)]

ghost use Rattle.std.specs.Prelude.{◌≡◌, ◌+◌, ◌/◌, ◌^◌, ◌≤◌, ◌<◌, length};
ghost use Rattle.datagram.specs.Read.{read_datagram_lem};
ghost use Rattle.log_index.specs.Index.{row_for, rows_from, no_room_in};
ghost use Rattle.index_builder.specs.Adds.{Indexes, AddsIn, Adds, Extends, IndexesOn};
ghost use Rattle.index_builder.specs.InsideWalk.{Settles, Takes, Walked};

use flight_log::Limits;
use log_index::Row;
use refusals::Refusal;

// How many rows an index has, and how many wait in a batch.
#[derive(Clone, Copy)]
struct Held {
    rows: usize,
    waiting: usize,
}

// The row of a datagram enters, where the reader accepts it within the log's limits: how many rows there are then.
fn enter_datagram(
    datagram: &[u8],
    limits: Limits,
    index: &mut [u64],
    n: usize,
    sender: u64,
    place: usize,
) -> usize
    requires { n + 1 < 2 ^ 64 }
    ensures { Takes (row_for sender place (read_datagram_lem limits.payload limits.fragments datagram.now)) index.old n result index.new }
{
    let Ok(header) = datagram::read_datagram(datagram, limits.payload, limits.fragments) else {
        return n;
    };
    let row = Row {
        sender,
        sequence: u64::from(header.sequence),
        place: place as u64,
    };
    log_index::enter(index, n, row);
    n + 1
}

// A full batch is merged into the index, and one that is not waits.
fn settle(index: &mut [u64], n: usize, batch: &[u64], m: usize) -> Held
    requires { n + m < 2 ^ 64 }
    ensures { Settles index.old n batch.now m result.rows result.waiting index.new }
{
    if m < batch.len() / 3 {
        return Held {
            rows: n,
            waiting: m,
        };
    }
    log_index::merge(index, n, batch, m);
    Held {
        rows: n + m,
        waiting: 0,
    }
}

// Goes over the entries from a place on: how many rows there are then. The row of each enters a batch, and full batches the index, where there are
// words for them; the last batch is merged at the end.
fn walk(
    log: &[u8],
    from: usize,
    limits: Limits,
    index: &mut [u64],
    n: usize,
    batch: &mut [u64],
) -> Result<usize, Refusal>
    requires { n < 2 ^ 32 }
    ensures { Walked (rows_from limits log.now from) index.old n (length batch.old) result index.new }
{
    let mut at = from;
    let mut held = Held {
        rows: n,
        waiting: 0,
    };
    while let Some(entry) = flight_log::next_entry(log, at)? {
        let m = enter_datagram(
            wire::part(log, entry.at, entry.len),
            limits,
            &mut *batch,
            held.waiting,
            entry.sender,
            at,
        );
        held = settle(&mut *index, held.rows, &*batch, m);
        at = entry.next;
    }
    log_index::merge(index, held.rows, &*batch, held.waiting);
    Ok(held.rows + held.waiting)
}

// The lent words have no room for n rows and k more, or an index has none.
fn no_room(words: usize, n: usize, k: usize, most: usize) -> bool
    requires { most < 2 ^ 32 }
    ensures { result ≡ no_room_in most words (n + k) }
{
    most < n || most - n < k || words < 3 * (n + k)
}

// Counts the entries from a place on, and then enters them, as many rows a batch as it has words for.
fn add_within(
    log: &[u8],
    from: usize,
    limits: Limits,
    index: &mut [u64],
    n: usize,
    most: usize,
    batch: &mut [u64],
) -> Result<usize, Refusal>
    requires { (most < 2 ^ 32) × (1 ≤ length batch.old / 3) }
    ensures { AddsIn most (length batch.old / 3) (rows_from limits log.now from) index.old n result index.new }
{
    let mut none = [0u64; 1];
    let mut no_batch = [0u64; 1];
    let k = walk(log, from, limits, &mut none, 0, &mut no_batch)?;
    if no_room(index.len(), n, k, most) {
        return Err(Refusal::IndexFull);
    }
    walk(log, from, limits, index, n, batch)
}

// With no more rows than L11 allows.
fn add(
    log: &[u8],
    from: usize,
    limits: Limits,
    index: &mut [u64],
    n: usize,
) -> Result<usize, Refusal>
    ensures { Adds (rows_from limits log.now from) index.old n result index.new }
{
    let mut batch = [0u64; 3 * log_index::BATCH];
    add_within(
        log,
        from,
        limits,
        index,
        n,
        log_index::MAX_INDEX,
        &mut batch,
    )
}

// The index of a log, afresh: how many rows it has.
pub fn index_log(log: &[u8], index: &mut [u64]) -> Result<usize, Refusal>
    ensures { Indexes log.now index.old result index.new }
{
    let (first, limits) = flight_log::first_entry(log)?;
    add(log, first, limits, index, 0)
}

// An index of n rows, extended by the entries from a place of the log on: how many rows it has then.
pub fn extend(log: &[u8], from: usize, index: &mut [u64], n: usize) -> Result<usize, Refusal>
    ensures { Extends log.now from index.old n result index.new }
{
    let (_, limits) = flight_log::first_entry(log)?;
    add(log, from, limits, index, n)
}

// An index of n rows, extended by the entries from a place of the log on, up to a most of the caller's own. Any place below the first entry is the first
// entry's, so that no rows and the place 0 give the index of the whole log.
pub fn index_on(
    log: &[u8],
    from: usize,
    index: &mut [u64],
    n: usize,
    most: u32,
) -> Result<usize, Refusal>
    ensures { IndexesOn log.now from index.old n most result index.new }
{
    let mut batch = [0u64; 3 * log_index::LARGE_BATCH];
    let (first, limits) = flight_log::first_entry(log)?;
    let start = from.max(first);
    add_within(log, start, limits, index, n, most as usize, &mut batch)
}
