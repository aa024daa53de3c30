// What C calls of host_index: each export calls the function of that name and states its contract again.
#![tactic(auto)]

ghost use Rattle.host_index.specs.Told.{IndexTold, OnTold, FindTold};

// The index of a log at the start of a lent list, three numbers a row: 2^32 and how many rows, or the number of the refusal.
#[unsafe(no_mangle)]
pub extern "C" fn qm_index(log: &[u8], index: &mut [u64]) -> u64
    ensures { IndexTold log.now index.old result index.new }
{
    host_index::qm_index(log, index)
}

// Where the first entry of a key begins, by an index of so many rows: 0 and two numbers at the start of a lent list, or 13.
#[unsafe(no_mangle)]
pub extern "C" fn qm_find(
    index: &[u64],
    rows: usize,
    sender: u64,
    sequence: u32,
    place: &mut [u64],
) -> u32
    ensures { FindTold index.now rows sender sequence place.old result place.new }
{
    host_index::qm_find(index, rows, sender, sequence, place)
}

// An index of so many rows, extended by the entries from a place of the log on, up to a most of the host's own: 2^32 and how many rows, or the number of the
// refusal.
#[unsafe(no_mangle)]
pub extern "C" fn qm_index_on(
    log: &[u8],
    from: usize,
    index: &mut [u64],
    rows: usize,
    most: u32,
) -> u64
    ensures { OnTold log.now from index.old rows most result index.new }
{
    host_index::qm_index_on(log, from, index, rows, most)
}
