// The count for a C host: its report as a run of numbers in a lent list.
#![tactic(auto)]

ghost use Rattle.std.specs.Prelude.{◌≡◌};
ghost use Rattle.wire.specs.Overlay.{overlay};
ghost use Rattle.count.specs.Counts.{loan_before, loan_after};
ghost use Rattle.host_count.specs.Numbers.{numbers_of};
ghost use Rattle.host_count.specs.Told.{CountTold};

use count::Report;

// How many numbers tell of a count, and where each group begins.
pub const REPORT: usize = SURE + count::MAX_TILES;

const REFUSED: usize = 4;

const LISTS: usize = REFUSED + count::REFUSALS;

const TILE: usize = LISTS + 2;

const PITS: usize = TILE + count::MAX_TILES;

const SURE: usize = PITS + count::MAX_TILES;

// The numbers of a report at the start of a list.
fn put_report(list: &mut [u64], report: Report)
    ensures { list.new ≡ overlay list.old 0 (numbers_of report) }
{
    let totals = [
        report.entries,
        report.kept,
        report.repeated,
        report.delivered,
    ];
    let refused = report.refused;
    let read = [report.lists, report.tiles];
    let tile = report.tile;
    let pits = report.pits;
    let sure = report.sure;
    words::put_words(list, 0, &totals);
    words::put_words(list, REFUSED, &refused);
    words::put_words(list, LISTS, &read);
    words::put_words(list, TILE, &tile);
    words::put_words(list, PITS, &pits);
    words::put_words(list, SURE, &sure);
}

// Counts a log: 0 and the report's numbers at the start of report, or the number of the refusal. Where report is too short it is 13, and nothing is done.
#[unsafe(no_mangle)]
pub extern "C" fn qm_count(
    log: &[u8],
    store: &mut [u8],
    ledger: &mut [u32],
    numbers: &mut [i64],
    report: &mut [u64],
) -> u32
    ensures { CountTold log.now (loan_before store ledger numbers) report.old result (loan_after store ledger numbers) report.new }
{
    if report.len() < REPORT {
        return 13;
    }
    match count::count_log(log, store, ledger, numbers) {
        Ok(given) => {
            put_report(report, given);
            0
        }
        Err(e) => e.number(),
    }
}
