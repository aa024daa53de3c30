// An index of a log in lent words: three a row, its sender, its sequence and its place in the log, sorted in that order. A row's place among the
// others, and a key, are found by halving.
#![tactic(auto)]

ghost use Rattle.std.specs.Prelude.{◌≡◌, ◌&&◌, ◌+◌, ◌*◌, ◌≤◌, ltb, length};
ghost use Rattle.log_index.specs.Rows.{earlier, is_of};
ghost use Rattle.log_index.specs.Words.{row_said, row_at, rank_in, inserted, entered, merged_by, merged, found_in, says};
ghost use Rattle.log_index.specs.Inside.{MergesOne};

use halving::Halved;

// The most rows of an index.
pub const MAX_INDEX: usize = 4096;

// How many rows are sorted among themselves before they are merged.
pub const BATCH: usize = 64;

// And where there may be a million: about the root of their number, where sorting and merging together cost least.
pub const LARGE_BATCH: usize = 1024;

// A row: the sender and the sequence of an entry, and where it begins in the log. Its order is that of its fields.
#[derive(Clone, Copy, Debug, PartialEq, Eq, PartialOrd, Ord)]
pub struct Row {
    pub sender: u64,
    pub sequence: u64,
    pub place: u64,
}

// Row i of some words.
fn row_at(index: &[u64], i: usize) -> Row
    requires { 3 * i + 3 ≤ length index.now }
    ensures { row_said result ≡ row_at index.now i }
{
    let at = 3 * i;
    Row {
        sender: index[at],
        sequence: index[at + 1],
        place: index[at + 2],
    }
}

// A row comes before another: by sender, then sequence, then place.
pub fn is_before(a: Row, b: Row) -> bool
    ensures { result ≡ earlier (row_said a) (row_said b) }
{
    a < b
}

// The first n rows, each asked whether it comes before a row.
#[derive(Drop)]
struct Before<'a> {
    index: &'a [u64],
    n: usize,
    row: Row,
    ghost held: { 3 * n ≤ length index.now },
}

impl Halved for Before<'_> {
    ghost many = { λ s. s.n };

    ghost holds = { λ s i. earlier (row_at s.index.now i) (row_said s.row) };

    fn count(&self) -> usize {
        self.n
    }

    fn test(&self, i: usize) -> bool {
        is_before(row_at(self.index, i), self.row)
    }
}

// The place of a row among the first n: how many come before it, where they are sorted.
fn rank(index: &[u64], n: usize, row: Row) -> usize
    requires { 3 * n ≤ length index.now }
    ensures { (result ≡ rank_in index.now n (row_said row)) × (result ≤ n) }
{
    halving::partition_point(&Before { index, n, row })
}

// A row goes k rows above a place, and those from the place up to the n-th behind it.
fn insert(index: &mut [u64], at: usize, n: usize, k: usize, row: Row)
    requires { (at ≤ n) × (3 * n + 3 * k + 3 ≤ length index.old) }
    ensures { index.new ≡ inserted index.old at n k (row_said row) }
{
    let to = 3 * (at + k);
    index.copy_within(3 * at..3 * n, to + 3);
    index[to + 2] = row.place;
    index[to + 1] = row.sequence;
    index[to] = row.sender;
}

// A row enters an index of n rows, where there are words for it.
pub fn enter(index: &mut [u64], n: usize, row: Row)
    ensures { index.new ≡ entered index.old n (row_said row) }
{
    if n < index.len() / 3 {
        let at = rank(&*index, n, row);
        insert(index, at, n, 0, row);
    }
}

// Row j of a batch goes to its place among the first n rows, j rows above it; answers its place.
fn merge_one(index: &mut [u64], n: usize, batch: &[u64], j: usize) -> usize
    requires { (3 * j + 3 ≤ length batch.now) × (3 * n + 3 * j + 3 ≤ length index.old) }
    ensures { MergesOne index.old n batch.now j result index.new }
{
    let row = row_at(batch, j);
    let at = rank(&*index, n, row);
    insert(index, at, n, j, row);
    at
}

// The sorted rows of a batch go in from the last on, so that what stands behind them moves once.
fn merge_all(index: &mut [u64], n: usize, batch: &[u64], m: usize)
    requires { (3 * m ≤ length batch.now) × (3 * n + 3 * m ≤ length index.old) }
    ensures { index.new ≡ merged_by m batch.now index.old n }
{
    let mut high = n;
    for j in (0..m).rev() {
        high = merge_one(index, high, batch, j);
    }
}

// The first m rows of a batch go into an index of n rows, where both have words for them.
pub fn merge(index: &mut [u64], n: usize, batch: &[u64], m: usize)
    ensures { index.new ≡ merged index.old n batch.now m }
{
    if batch.len() / 3 < m {
        return;
    }
    if index.len() / 3 < m {
        return;
    }
    if index.len() / 3 - m < n {
        return;
    }
    merge_all(index, n, batch, m);
}

// Row i, of those before n, has a key.
fn is_of(index: &[u64], n: usize, i: usize, sender: u64, sequence: u64) -> bool
    requires { 3 * n ≤ length index.now }
    ensures { result ≡ (ltb i n && is_of sender sequence (row_at index.now i)) }
{
    i < n && index[3 * i] == sender && index[3 * i + 1] == sequence
}

// Where the first entry of a key begins in the log, by an index of n rows.
pub fn find(index: &[u64], n: usize, sender: u64, sequence: u64) -> Option<u64>
    ensures { says result ≡ found_in index.now n sender sequence }
{
    let m = wire::least(n, index.len() / 3);
    let key = Row {
        sender,
        sequence,
        place: 0,
    };
    let i = rank(index, m, key);
    if is_of(index, m, i, sender, sequence) {
        return Some(index[3 * i + 2]);
    }
    None
}
