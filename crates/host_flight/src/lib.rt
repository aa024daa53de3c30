// What the van's C host calls for a flight that was kept, and for what was missed: the log's reader at a place, and the sequence watch.
#![tactic(auto)]

ghost use Rattle.std.specs.Prelude.{◌≡◌};
ghost use Rattle.wire.specs.Overlay.{overlay};
ghost use Rattle.host_flight.specs.Reading.{FirstTold, NextTold, entry_numbers, end_numbers};

use flight_log::EntryAt;
use refusals::Refusal;

mod watching;

pub use watching::qm_watch_see;

// How many numbers tell of a log's head, and of an entry.
pub const HEAD: usize = 3;

pub const ENTRY: usize = 6;

// Judges the head of a log: 0, with where the first entry begins and the log's limits at the start of a lent list, or the number of the refusal.
#[unsafe(no_mangle)]
pub extern "C" fn qm_log_first(log: &[u8], head: &mut [u64]) -> u32
    ensures { FirstTold log.now head.old result head.new }
{
    if head.len() < HEAD {
        return Refusal::NoRoom.number();
    }
    match flight_log::first_entry(log) {
        Ok((place, limits)) => {
            let told = [place as u64, limits.payload as u64, limits.fragments as u64];
            words::put_words(head, 0, &told);
            0
        }
        Err(refusal) => refusal.number(),
    }
}

fn put_found(list: &mut [u64], e: EntryAt)
    ensures { list.new ≡ overlay list.old 0 (entry_numbers e) }
{
    let told = [
        1,
        e.sender,
        e.tick,
        e.at as u64,
        e.len as u64,
        e.next as u64,
    ];
    words::put_words(list, 0, &told);
}

fn put_end(list: &mut [u64], at: usize)
    ensures { list.new ≡ overlay list.old 0 (end_numbers at) }
{
    let told = [0, 0, 0, at as u64, 0, at as u64];
    words::put_words(list, 0, &told);
}

// The entry at a place of a log: 0 and six numbers at the start of a lent list, whether there is one first; or the number of the refusal.
#[unsafe(no_mangle)]
pub extern "C" fn qm_log_next(log: &[u8], at: usize, entry: &mut [u64]) -> u32
    ensures { NextTold log.now at entry.old result entry.new }
{
    if entry.len() < ENTRY {
        return Refusal::NoRoom.number();
    }
    match flight_log::next_entry(log, at) {
        Ok(Some(e)) => {
            put_found(entry, e);
            0
        }
        Ok(None) => {
            put_end(entry, at);
            0
        }
        Err(refusal) => refusal.number(),
    }
}
