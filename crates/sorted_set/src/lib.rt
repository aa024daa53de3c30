// Distinct numbers kept in rising order in lent words: found by halving, and entered once.
#![tactic(auto)]

ghost use Rattle.std.specs.Prelude.{◌≡◌, ◌+◌, ◌-◌, ◌≤◌, ◌<◌, length, take, drop};
ghost use Rattle.wire.specs.Overlay.{overlay};
ghost use Rattle.sorted_set.specs.Halving.{smaller, rank_in, found_in, inserted, Enters};

use halving::Halved;

// The first n words, each asked whether it is below x.
#[derive(Drop)]
struct Below<'a> {
    w: &'a [u64],
    n: usize,
    x: u64,
    ghost short: { n ≤ length w.now },
}

impl Halved for Below<'_> {
    ghost many = { λ s. s.n };

    ghost holds = { λ s. smaller s.w.now s.x };

    fn count(&self) -> usize {
        self.n
    }

    fn test(&self, i: usize) -> bool {
        self.w[i] < self.x
    }
}

// The place of x among the first n words: how many of them are below x, where they rise.
pub fn rank(w: &[u64], n: usize, x: u64) -> usize
    ensures { result ≡ rank_in w.now n x }
{
    let m = n.min(w.len());
    halving::partition_point(&Below { w, n: m, x })
}

// Where x stands among the first n words; or else where it belongs among them, where they rise.
pub fn find(w: &[u64], n: usize, x: u64) -> Result<usize, usize>
    ensures { result ≡ found_in w.now n x }
{
    let m = n.min(w.len());
    let at = rank(w, n, x);
    if at < m && w[at] == x {
        Ok(at)
    } else {
        Err(at)
    }
}

// So many words move at once, by way of an array. Nothing overlaps it, so the compiler makes one move of both copies and drops the array.
// Kept: `copy_within` took 580 ms and more where these blocks take 340, of 65,536 falling numbers, and four times as many pits cost over eight times as much (tests/worst).
const BLOCK: usize = 2048;

// n words of src, from a place on, at a place.
fn put_part(out: &mut [u64], at: usize, src: &[u64], from: usize, n: usize)
    requires { (n ≤ length src.now - from) × (n ≤ length out.old - at) }
    ensures { out.new ≡ overlay out.old at (take n (drop from src.now)) }
{
    let mut i: usize = 0;
    while i < n {
        out[at + i] = src[from + i];
        i += 1;
    }
}

// n words from a place on, at most a block, move up by one.
fn move_up(w: &mut [u64], from: usize, n: usize)
    requires { (n ≤ 2048) × (from + n < length w.old) }
    ensures { w.new ≡ overlay w.old (from + 1) (take n (drop from w.old)) }
{
    let mut block = [0u64; BLOCK];
    put_part(&mut block, 0, &*w, from, n);
    put_part(w, from + 1, &block, 0, n);
}

// The words from a place up to the n-th move up by one, and x goes to the place.
fn insert(w: &mut [u64], at: usize, n: usize, x: u64)
    requires { (at ≤ n) × (n < length w.old) }
    ensures { w.new ≡ inserted w.old at n x }
{
    let mut i = n;
    while at < i {
        let k = wire::least(BLOCK, i - at);
        i -= k;
        move_up(&mut *w, i, k);
    }
    w[at] = x;
}

// Enters x among the first n words, once: how many they are then, or none where there is no room for one more.
pub fn enter(w: &mut [u64], n: usize, x: u64) -> Option<usize>
    ensures { Enters w.old n x result w.new }
{
    let m = n.min(w.len());
    let Err(at) = find(&*w, n, x) else {
        return Some(m);
    };
    if m == w.len() {
        return None;
    }
    insert(w, at, m, x);
    Some(m + 1)
}
