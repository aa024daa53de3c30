// Ranks: of the places of a run of words that are in use, which came first. Every function is total: past the end a word is read as zero and
// nothing is written.
#![tactic(auto)]

ghost use Rattle.std.specs.Prelude.{◌≡◌, ◌+◌, min, get_or, set, ltb};
ghost use Rattle.wire.specs.Choice.{pick};
ghost use Rattle.ranks.specs.Ranks.{lower_rank_lem, ranks_lowered, lowest_ranked_lem};

// Where the places of a run keep their ranks: where the first place begins, how many words each has, which of them says whether the place is
// in use (it is not 0), and which is its rank.
#[derive(Clone, Copy, Debug, PartialEq, Eq)]
pub struct Ranked {
    pub first: usize,
    pub stride: usize,
    pub mark: usize,
    pub rank: usize,
}

// Where the next place begins, at most at n.
fn next_place(at: usize, stride: usize, n: usize) -> usize
    ensures { result ≡ min (at + stride) n }
{
    at.saturating_add(stride).min(n)
}

// Word j of the place that begins there.
fn word_of(w: &[u64], at: usize, j: usize) -> u64
    ensures { result ≡ get_or w.now (at + j) 0 }
{
    if j < w.len().saturating_sub(at) {
        return w[at + j];
    }
    0
}

fn put_word_of(w: &mut [u64], at: usize, j: usize, x: u64)
    ensures { w.new ≡ set w.old (at + j) x }
{
    if j < w.len().saturating_sub(at) {
        w[at + j] = x;
    }
}

fn lower_rank(mark: u64, t: u64, x: u64) -> u64
    ensures { result ≡ lower_rank_lem mark t x }
{
    if mark == 0 {
        return x;
    }
    if t < x { x - 1 } else { x }
}

// Rank t is given up: of the first n places, each in use with a rank above it falls by one.
pub fn lower_ranks(w: &mut [u64], p: Ranked, n: usize, t: u64)
    ensures { w.new ≡ ranks_lowered w.old p t n }
{
    let mut at = p.first.min(w.len());
    for _i in 0..n {
        let mark = word_of(&*w, at, p.mark);
        let rank = word_of(&*w, at, p.rank);
        put_word_of(&mut *w, at, p.rank, lower_rank(mark, t, rank));
        at = next_place(at, p.stride, w.len());
    }
}

// The place with the lower rank, on a tie the earlier.
fn lower_of(rank: u64, low: u64, i: usize, best: usize) -> usize
    ensures { result ≡ pick (ltb rank low) i best }
{
    if rank < low { i } else { best }
}

// Of the first n places the one with the lowest rank, on a tie the first.
pub fn lowest_ranked(w: &[u64], p: Ranked, n: usize) -> usize
    ensures { result ≡ lowest_ranked_lem w.now p n }
{
    let mut best: usize = 0;
    let mut at = p.first.min(w.len());
    let mut low = word_of(w, at, p.rank);
    for i in 0..n {
        let rank = word_of(w, at, p.rank);
        best = lower_of(rank, low, i, best);
        low = low.min(rank);
        at = next_place(at, p.stride, w.len());
    }
    best
}
