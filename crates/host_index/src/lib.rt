// The index of a log for the van's C host, and where the first entry of a key begins.
#![tactic(auto)]

ghost use Rattle.std.specs.Prelude.{◌≡◌};
ghost use Rattle.index_builder.specs.Adds as indexing;
ghost use Rattle.log_index.specs.Words.{says};
ghost use Rattle.host_index.specs.Told.{index_code, Few, IndexTold, OnTold, place_numbers_lem, FindTold};

use refusals::Refusal;

// How many numbers tell of a key.
pub const PLACE: usize = 2;

// 2^32 and how many rows there are, or the number of the refusal.
fn told(indexed: Result<usize, Refusal>) -> u64
    requires { Few (indexing.says indexed) }
    ensures { result ≡ index_code (indexing.says indexed) }
{
    match indexed {
        Ok(n) => 4294967296 + n as u64,
        Err(refusal) => refusal.number() as u64,
    }
}

// The index of a log at the start of a lent list, three numbers a row: 2^32 and how many rows, or the number of the refusal.
#[unsafe(no_mangle)]
pub extern "C" fn qm_index(log: &[u8], index: &mut [u64]) -> u64
    ensures { IndexTold log.now index.old result index.new }
{
    told(index_builder::index_log(log, index))
}

// What is told of a key: 1 and where its first entry begins, or 0 and 0.
pub fn place_numbers(found: Option<u64>) -> [u64; PLACE]
    ensures { result ≡ place_numbers_lem (says found) }
{
    match found {
        Some(place) => [1, place],
        None => [0, 0],
    }
}

// Where the first entry of a key begins, by an index of so many rows: 0 and two numbers at the start of a lent list, or 13.
#[unsafe(no_mangle)]
pub extern "C" fn qm_find(
    index: &[u64],
    rows: usize,
    sender: u64,
    sequence: u32,
    place: &mut [u64],
) -> u32
    ensures { FindTold index.now rows sender sequence place.old result place.new }
{
    if place.len() < PLACE {
        return Refusal::NoRoom.number();
    }
    let found = log_index::find(index, rows, sender, words::as_word(sequence));
    let numbers = place_numbers(found);
    words::put_words(place, 0, &numbers);
    0
}

// An index of so many rows, extended by the entries from a place of the log on, up to a most of the host's own: 2^32 and how many rows, or the number of the
// refusal.
#[unsafe(no_mangle)]
pub extern "C" fn qm_index_on(
    log: &[u8],
    from: usize,
    index: &mut [u64],
    rows: usize,
    most: u32,
) -> u64
    ensures { OnTold log.now from index.old rows most result index.new }
{
    told(index_builder::index_on(log, from, index, rows, most))
}
