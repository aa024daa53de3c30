// Numbers at a place of a lent slice. Every function is total: past the end a number is read as zero and nothing is written.
#![tactic(auto)]

ghost use Rattle.std.specs.Prelude.{◌≡◌, ◌^◌, ◌<◌, get_or, set};
ghost use Rattle.wire.specs.Overlay.{overlay};

// ---- numbers of 32 bits

// As a word of 64 bits.
pub fn as_word(x: u32) -> u64
    ensures { result ≡ x }
{
    u64::from(x)
}

// As a size.
pub fn as_size(x: u32) -> usize
    ensures { (result ≡ x) × (result < 2 ^ 32) }
{
    x as usize
}

// ---- read: words, and the ledger's numbers

// The word at a place.
pub fn word(w: &[u64], i: usize) -> u64
    ensures { result ≡ get_or w.now i 0 }
{
    w.get(i).copied().unwrap_or(0)
}

// The ledger's number at a place, below 2^32.
pub fn entry(l: &[u32], i: usize) -> usize
    ensures { (result ≡ get_or l.now i 0) × (result < 2 ^ 32) }
{
    as_size(l.get(i).copied().unwrap_or(0))
}

// ---- written: numbers of either width

// One number written.
pub fn put_word<T: Copy>(w: &mut [T], i: usize, x: T)
    ensures { w.new ≡ set w.old i x }
{
    if i < w.len() {
        w[i] = x;
    }
}

// The numbers of src at a place.
pub fn put_words<T: Copy>(w: &mut [T], at: usize, src: &[T])
    ensures { w.new ≡ overlay w.old at src.now }
{
    wire::put_all(w, at, src);
}
