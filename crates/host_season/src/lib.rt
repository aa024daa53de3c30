// The count that goes on, for a C host: a stretch as a run of numbers in a lent list.
#![tactic(auto)]

ghost use Rattle.std.specs.Prelude.{◌≡◌};
ghost use Rattle.wire.specs.Overlay.{overlay};
ghost use Rattle.wire.specs.Slices.{buffer};
ghost use Rattle.receiver.specs.Lent.{lent_before, lent_after};
ghost use Rattle.pit_payloads.specs.Looks.{book_before, book_after};
ghost use Rattle.stretch.specs.Stretch.{desk};
ghost use Rattle.stretch.specs.Told.{stop_told, stretch_told};
ghost use Rattle.host_season.specs.Numbers.{stop_numbers_lem, stretch_numbers};
ghost use Rattle.host_season.specs.Told.{StretchTold};

use pit_marks::{PitSets, Sizes};
use stretch::{Stop, Stretch};

// How many numbers tell of a stretch, and where each group begins.
pub const STRETCH: usize = SIZES + 3;

const PLACE: usize = 2;

const REFUSED: usize = PLACE + 6;

const SIZES: usize = REFUSED + stretch::REFUSALS;

// Why it stopped, and the number of the refusal.
fn stop_numbers(stop: Stop) -> [u64; 2]
    ensures { result ≡ stop_numbers_lem (stop_told stop) }
{
    match stop {
        Stop::Taken => [0, 0],
        Stop::End => [1, 0],
        Stop::Broken(e) => [2, e.number() as u64],
        Stop::Refused(e) => [3, e.number() as u64],
    }
}

// The numbers of a stretch at the start of a list.
fn put_stretch(list: &mut [u64], stretch: Stretch)
    ensures { list.new ≡ overlay list.old 0 (stretch_numbers (stretch_told stretch)) }
{
    let stop = stretch.stop;
    let totals = stretch.totals;
    let sizes = stretch.sizes;
    let refused = totals.refused;
    let why = stop_numbers(stop);
    let told = [
        stretch.place as u64,
        stretch.entries,
        totals.kept,
        totals.repeated,
        totals.delivered,
        totals.lists,
    ];
    let now = [sizes.tiles as u64, sizes.pits as u64, sizes.sure as u64];
    words::put_words(list, 0, &why);
    words::put_words(list, PLACE, &told);
    words::put_words(list, REFUSED, &refused);
    words::put_words(list, SIZES, &now);
}

// Counts on through a log from a place: 0, and the stretch's numbers at the start of told. Where told is too short it is 13, and nothing is done.
#[unsafe(no_mangle)]
pub extern "C" fn qm_count_on(
    log: &[u8],
    place: usize,
    most: u64,
    state: &mut [u64],
    names: &mut [u8],
    store: &mut [u8],
    ledger: &mut [u32],
    numbers: &mut [i64],
    tiles: &mut [u64],
    pits: &mut [u64],
    sure: &mut [u64],
    had_tiles: usize,
    had_pits: usize,
    had_sure: usize,
    told: &mut [u64],
) -> u32
    ensures { StretchTold log.now place most (desk (lent_before state names store ledger) (book_before numbers tiles pits sure))
        (record { tiles = had_tiles; pits = had_pits; sure = had_sure }) (buffer told) result (desk (lent_after state names store ledger) (book_after numbers tiles pits sure)) }
{
    if told.len() < STRETCH {
        return 13;
    }
    let mut sets = PitSets {
        tiles,
        pits,
        sure,
        sizes: Sizes {
            tiles: had_tiles,
            pits: had_pits,
            sure: had_sure,
        },
    };
    let done = stretch::count_on(
        log, place, most, state, names, store, ledger, numbers, &mut sets,
    );
    put_stretch(told, done);
    0
}
