// The count of a flight: one log through a fresh receiver, and for each tile its distinct pits and how many of them were marked sure.
#![tactic(auto)]

ghost use Rattle.std.specs.Prelude.{◌≡◌, List, ◌≤◌, Ok};
ghost use Rattle.flight_log.specs.Listed.{entries_in};
ghost use Rattle.count_rules.specs.Count.{max_tiles, reported};
ghost use Rattle.count_rules.specs.Marks.{PitList};
ghost use Rattle.count_rules.specs.Report.{report};
ghost use Rattle.pit_marks.specs.Sets.{Has};
ghost use Rattle.pit_marks.specs.Told.{sets_in};
ghost use Rattle.count.specs.Counts.{counted, told, loan_before, loan_after, Counts};
ghost use Rattle.count.specs.Inside.{survey_of, surveyed_told, Whole, report_with};

use pit_marks::{PitSets, Sizes};
use refusals::Refusal;
use stretch::{Stop, Totals};

// The most entries of a log, tiles of a report, and pits of all tiles.
pub const MAX_ENTRIES: u64 = 4096;

pub const MAX_TILES: usize = 256;

pub const MAX_PITS: usize = 8192;

// The receiver's numbers of refusal are below this.
pub const REFUSALS: usize = 10;

// What is counted of a log: its entries by their answers (refused[k]: by number k), the lists read, and for each tile, in rising number, its
// number, its distinct pits and how many of them are sure. Past the last tile there are zeros.
#[derive(Clone, Copy)]
pub struct Report {
    pub entries: u64,
    pub kept: u64,
    pub repeated: u64,
    pub delivered: u64,
    pub refused: [u64; REFUSALS],
    pub lists: u64,
    pub tiles: u64,
    pub tile: [u64; MAX_TILES],
    pub pits: [u64; MAX_TILES],
    pub sure: [u64; MAX_TILES],
}

// The whole log, read for its own refusals: how many entries it has, if not too many.
fn survey(log: &[u8]) -> Result<u64, Refusal>
    ensures { surveyed_told result ≡ survey_of (entries_in log.now) }
{
    let mut place: usize = 0;
    let mut n: u64 = 0;
    while let Some(entry) = flight_log::read_on(log, place)? {
        place = entry.next;
        n += 1;
    }
    if MAX_ENTRIES < n {
        return Err(Refusal::TooManyEntries);
    }
    Ok(n)
}

// The report of a whole log.
fn given(entries: u64, totals: Totals, sizes: Sizes, sets: &PitSets) -> Report
    ensures { (seen : List PitList) → Has (sets_in sets.now) sizes seen → sizes.tiles ≤ max_tiles → told (Ok result) ≡ counted (reported (report_with entries totals (report seen))) }
{
    let mut tile = [0u64; MAX_TILES];
    let mut pit = [0u64; MAX_TILES];
    let mut certain = [0u64; MAX_TILES];
    pit_marks::put_lines(
        &mut tile,
        &mut pit,
        &mut certain,
        &*sets.tiles,
        &*sets.pits,
        &*sets.sure,
        sizes,
    );
    let refused = totals.refused;
    Report {
        entries,
        kept: totals.kept,
        repeated: totals.repeated,
        delivered: totals.delivered,
        refused,
        lists: totals.lists,
        tiles: sizes.tiles as u64,
        tile,
        pits: pit,
        sure: certain,
    }
}

// Through a fresh receiver.
fn afresh(
    log: &[u8],
    entries: u64,
    store: &mut [u8],
    ledger: &mut [u32],
    numbers: &mut [i64],
) -> Result<Report, Refusal>
    requires { Whole log.now entries }
    ensures { Counts log.now (loan_before store ledger numbers) (told result) (loan_after store ledger numbers) }
{
    let mut state = [0u64; receiver::STATE_WORDS];
    let mut names = [0u8; receiver::NAME_BYTES];
    let mut tiles = [0u64; MAX_TILES];
    let mut pits = [0u64; MAX_PITS];
    let mut sure = [0u64; MAX_PITS];
    let _ = open_and_payload::open(&mut state, &mut names, store.len());
    let mut sets = PitSets {
        tiles: &mut tiles,
        pits: &mut pits,
        sure: &mut sure,
        sizes: Sizes {
            tiles: 0,
            pits: 0,
            sure: 0,
        },
    };
    let done = stretch::count_on(
        log, 0, entries, &mut state, &mut names, store, ledger, numbers, &mut sets,
    );
    let stop = done.stop;
    if let Stop::Refused(e) = stop {
        return Err(e);
    }
    Ok(given(entries, done.totals, done.sizes, &sets))
}

// THE COUNT of a log: its report, or the refusal. The store, the ledger and the number list are lent; the receiver's state is its own.
pub fn count_log(
    log: &[u8],
    store: &mut [u8],
    ledger: &mut [u32],
    numbers: &mut [i64],
) -> Result<Report, Refusal>
    ensures { Counts log.now (loan_before store ledger numbers) (told result) (loan_after store ledger numbers) }
{
    let entries = survey(log)?;
    afresh(log, entries, store, ledger, numbers)
}
