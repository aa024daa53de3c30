// Whether a fragment fits among those held of its message, whose offsets and lengths are in a lent ledger. The public function is total over any
// slices.
#![tactic(auto)]

ghost use Rattle.std.specs.Prelude.{◌≡◌, ◌+◌, ◌-◌, ◌*◌, ◌%◌, ◌≤◌, ◌<◌, ◌^◌, ltb, length};
ghost use Rattle.steps.specs.Search.{all_below};
ghost use Rattle.fragment_fit.specs.Fits.{agrees_at, fits_in_lem};
ghost use Rattle.fragment_fit.specs.Inside.{crosses, apart_at, near_fit_lem, apart_in};

// ---- one by one, over any slices

// Of two fragments, the lower number ends at or before the higher begins, and exactly there when they are neighbours.
fn agree(k: usize, offset: usize, len: usize, j: usize, other: usize, size: usize) -> bool
    requires { (k < 2 ^ 32) × (j < 2 ^ 32) × (offset < 2 ^ 32) × (len < 2 ^ 32) × (other < 2 ^ 32) × (size < 2 ^ 32) }
    ensures { result ≡ agrees_at k offset len j other size }
{
    if j < k {
        if j + 1 == k {
            other + size == offset
        } else {
            other + size <= offset
        }
    } else {
        if k + 1 == j {
            offset + len == other
        } else {
            offset + len <= other
        }
    }
}

// Fragment k, from an offset on as long as that, agrees with fragment j where that is held; the slot's ledger has offset and length of each.
fn fits_with(held: &[u64], ledger: &[u32], k: u32, offset: u32, len: u32, j: usize) -> bool
    requires { j < 2 ^ 32 }
    ensures { result ≡ fits_in_lem held.now ledger.now k offset len j }
{
    if !held_bits::is_held(held, j) {
        return true;
    }
    let other = words::entry(ledger, 2 * j);
    let long = words::entry(ledger, 2 * j + 1);
    agree(
        words::as_size(k),
        words::as_size(offset),
        words::as_size(len),
        j,
        other,
        long,
    )
}

// It agrees with every held one below n.
fn fits_each(held: &[u64], ledger: &[u32], n: usize, k: u32, offset: u32, len: u32) -> bool
    requires { n < 2 ^ 32 }
    ensures { result ≡ all_below n (fits_in_lem held.now ledger.now k offset len) }
{
    (0..n).all(|j| fits_with(held, ledger, k, offset, len, j))
}

// It agrees with its neighbours.
fn near_fit(held: &[u64], ledger: &[u32], n: usize, k: u32, offset: u32, len: u32) -> bool
    requires { n < 2 ^ 32 }
    ensures { result ≡ near_fit_lem held.now ledger.now n k offset len }
{
    let number = words::as_size(k);
    if 0 < number {
        if !fits_with(held, ledger, k, offset, len, number - 1) {
            return false;
        }
    }
    if number + 1 < n {
        return fits_with(held, ledger, k, offset, len, number + 1);
    }
    true
}

// ---- word by word

// So many bytes from an offset on reach past a place. Nothing is added, so that 32 bits are enough.
fn reach_past(offset: u32, len: u32, place: u32) -> bool
    ensures { result ≡ ltb place (offset + len) }
{
    if place < offset {
        return true;
    }
    place - offset < len
}

// The lower of two fragments reaches past where the higher begins. One has its offset and length here, the other in the ledger; the other is the
// lower where it is below.
fn crosses(below: bool, offset: u32, len: u32, other: u32, size: u32) -> bool
    ensures { result ≡ crosses below offset len other size }
{
    if below {
        return reach_past(other, size, offset);
    }
    reach_past(offset, len, other)
}

// Of the m fragments whose bits are those of a word, and whose entries begin at a place of the ledger, no held one crosses the fragment. Those
// that do are counted to the end, and without a branch, for several bits at once.
fn run_apart(
    w: u64,
    ledger: &[u32],
    at: usize,
    m: usize,
    below: bool,
    offset: u32,
    len: u32,
) -> bool
    requires { (m ≤ 64) × (at + 2 * m ≤ length ledger.now) }
    ensures { result ≡ all_below m (apart_in w ledger.now at below offset len) }
{
    let mut crossed: u32 = 0;
    for b in 0..m {
        let e = at + 2 * b;
        let here = crosses(below, offset, len, ledger[e], ledger[e + 1]);
        let held = (w >> b) % 2 == 1;
        if held & here {
            crossed += 1;
        }
    }
    crossed == 0
}

// How many fragments from j on, below n, have their bits in one word, and are all below k or none of them.
fn run_length(j: usize, k: usize, n: usize) -> usize
    requires { (j < n) × (k ≤ n) }
    ensures { (0 < result) × (result ≤ 64 - j % 64) × (j + result ≤ n) × (j < k → j + result ≤ k) }
{
    let rest = held_bits::WORD_BITS - j % held_bits::WORD_BITS;
    if j < k {
        return rest.min(k - j);
    }
    rest.min(n - j)
}

// No held one of at most 64 crosses fragment k: those below it, then those above.
fn few_apart(held: &[u64], ledger: &[u32], n: usize, k: usize, offset: u32, len: u32) -> bool
    requires { (k < n) × (n ≤ 64) × (2 * n ≤ length ledger.now) }
    ensures { result ≡ all_below n (apart_at held.now ledger.now k offset len) }
{
    let w = words::word(held, 0);
    if !run_apart(w, ledger, 0, k, true, offset, len) {
        return false;
    }
    let above = w >> k;
    if above == 0 {
        return true;
    }
    run_apart(above, ledger, 2 * k, n - k, false, offset, len)
}

// No held one below n crosses fragment k. A word with no bit set is passed over.
fn all_apart(held: &[u64], ledger: &[u32], n: usize, k: usize, offset: u32, len: u32) -> bool
    requires { (k ≤ n) × (n < 2 ^ 32) × (2 * n ≤ length ledger.now) }
    ensures { result ≡ all_below n (apart_at held.now ledger.now k offset len) }
{
    let mut j: usize = 0;
    // Kept: a run is as long as run_length says, so that no range steps by it.
    while j < n {
        let m = run_length(j, k, n);
        let w = words::word(held, j / held_bits::WORD_BITS) >> (j % held_bits::WORD_BITS);
        if w != 0 {
            if !run_apart(w, ledger, 2 * j, m, j < k, offset, len) {
                return false;
            }
        }
        j += m;
    }
    true
}

// Where the fragment is one of n, and the ledger has an entry for each: it agrees with its neighbours, and no other crosses it.
fn fits_apart(held: &[u64], ledger: &[u32], n: usize, k: u32, offset: u32, len: u32) -> bool
    requires { (k < n) × (n < 2 ^ 32) × (2 * n ≤ length ledger.now) }
    ensures { result ≡ all_below n (fits_in_lem held.now ledger.now k offset len) }
{
    if !near_fit(held, ledger, n, k, offset, len) {
        return false;
    }
    let number = words::as_size(k);
    if n <= held_bits::WORD_BITS {
        return few_apart(held, ledger, n, number, offset, len);
    }
    all_apart(held, ledger, n, number, offset, len)
}

// Fragment k, from an offset on as long as that, agrees with every held one below n; the slot's ledger has offset and length of each.
pub fn fits_all(held: &[u64], ledger: &[u32], n: u32, k: u32, offset: u32, len: u32) -> bool
    ensures { result ≡ all_below n (fits_in_lem held.now ledger.now k offset len) }
{
    let count = words::as_size(n);
    if k < n {
        if 2 * count <= ledger.len() {
            return fits_apart(held, ledger, count, k, offset, len);
        }
    }
    fits_each(held, ledger, count, k, offset, len)
}
