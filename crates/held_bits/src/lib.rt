// Which fragments of an open message are held: a bit for each, in lent words. Every public function is total over any slice.
#![tactic(auto)]

ghost use Rattle.std.specs.Prelude.{◌≡◌, ◌≢◌, true, false, ℕ, ◌<◌, get_or};
ghost use Rattle.steps.specs.Search.{all_below};
ghost use Rattle.steps.specs.Held.{is_held, hold};
ghost use Rattle.held_bits.specs.InsideBits.{bit_in};

pub const WORD_BITS: usize = 64;
// The words with a bit for each fragment of a message.
pub const WORDS: usize = datagram::MAX_FRAGMENTS as usize / WORD_BITS;
// A word with every bit set.
const FULL: u64 = u64::MAX;

// Fragment k is held.
pub fn is_held(held: &[u64], k: usize) -> bool
    ensures { result ≡ is_held held.now k }
{
    let w = words::word(held, k / WORD_BITS);
    let b = k % WORD_BITS;
    (w >> b) % 2 == 1
}

// Fragment k is held now.
pub fn hold_fragment(held: &mut [u64], k: usize)
    ensures { held.new ≡ hold held.old k }
{
    let w = words::word(&*held, k / WORD_BITS);
    let b = k % WORD_BITS;
    let bit = 1u64 << b;
    words::put_word(held, k / WORD_BITS, w | bit);
}

// The lowest n bits of a word are set.
fn low_set(w: u64, n: usize) -> bool
    requires { n < 64 }
    ensures { result ≡ all_below n (bit_in w) }
{
    let above = 1u64 << n;
    w % above == above - 1
}

// The first q words have every bit set, the last of them first.
fn all_full(held: &[u64], q: usize) -> bool
    ensures yes { result ≡ true → (i : ℕ) → i < q → get_or held.now i 0 ≡ FULL }
    ensures no { result ≡ false → (i : ℕ) × (i < q) × (get_or held.now i 0 ≢ FULL) }
{
    (0..q).rev().all(|i| words::word(held, i) == FULL)
}

// Fragments 0 to n - 1 are held: word by word. The last fragment is the last to come, so its word is asked first.
pub fn all_held(held: &[u64], n: usize) -> bool
    ensures { result ≡ all_below n (is_held held.now) }
{
    let q = n / WORD_BITS;
    low_set(words::word(held, q), n % WORD_BITS) && all_full(held, q)
}
