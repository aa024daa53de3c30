// The memory of delivered keys: the last words of a receiver's state. 16 places for senders, each with its last 32 sequences. A key is
// looked for, and remembered; `memory_places` has what is done to the places themselves.
// Every public function is total over any slice.
#![tactic(auto)]

ghost use Rattle.std.specs.Prelude.{IfSome, ◌≡◌, false, ◌+◌, ◌≤◌, ◌<◌, ◌-◌, ◌%◌, length};
ghost use Rattle.steps.specs.Limits.{senders_most, keys_each};
ghost use Rattle.steps.specs.Search.{first};
ghost use Rattle.steps.specs.InsideSearch.{option_of};
ghost use Rattle.steps.specs.Memory.{key_of, is_of, vacant, remembered, has, place_for_lem, count_of, is_remembered_lem};
ghost use Rattle.steps.specs.Memory as steps;
ghost use Rattle.memory.specs.Words.{memory_words, place_in, memory_in, Left};
ghost use Rattle.memory.specs.InsideParts.{turn_ranks, settled_in, shifted_in, added_in};

use ranks::Ranked;

// For how many senders keys are remembered, and how many for each.
pub const SENDERS_MOST: usize = 16;

pub const KEYS_EACH: usize = 32;
// Where the words of the places stand: senders, how many sequences count, turns, and sequences.
pub const USED: usize = SENDERS_MOST;

const TURNS: usize = 2 * SENDERS_MOST;

const SEQUENCES: usize = 3 * SENDERS_MOST;
// The words of a memory.
pub const WORDS: usize = SEQUENCES + KEYS_EACH * SENDERS_MOST;

// The turns are ranks of their own: no other word says whether a place has one.
fn turns() -> Ranked
    ensures { result ≡ turn_ranks }
{
    Ranked {
        first: TURNS,
        stride: 1,
        mark: 0,
        rank: 0,
    }
}

// ---- a place is found

fn is_of(memory: &[u64], i: usize, sender: u64) -> bool
    requires { i < senders_most }
    ensures { result ≡ is_of sender (place_in memory.now i) }
{
    // Most places are another's.
    words::word(memory, i) == sender && words::word(memory, USED + i) != 0
}

// The sender's place.
fn own_place(memory: &[u64], sender: u64) -> Option<usize>
    ensures inside { IfSome result (λ i. i < senders_most) }
    ensures first { option_of result ≡ first (is_of sender) (memory_in memory.now) }
{
    (0..SENDERS_MOST).find(|i| is_of(memory, *i, sender))
}

// The first free place.
fn free_place(memory: &[u64]) -> Option<usize>
    ensures { option_of result ≡ first vacant (memory_in memory.now) }
{
    (0..SENDERS_MOST).find(|i| words::word(memory, USED + *i) == 0)
}

// The low 32 bits.
fn low_of(x: u64) -> u32
    ensures { result ≡ x % 4294967296 }
{
    (x % 4294967296) as u32
}

// Where this is false, the sequence does not count at place i of a memory. All low halves are compared, so that the compiler can compare several at once.
fn may_have(memory: &[u64], i: usize, sequence: u64) -> bool
    requires { (i < senders_most) × (length memory.now ≡ memory_words) }
    ensures { result ≡ false → has (remembered (place_in memory.now i)) sequence ≡ false }
{
    let a = SEQUENCES + KEYS_EACH * i;
    let low = low_of(sequence);
    let mut seen = false;
    for key in &memory[a..a + KEYS_EACH] {
        seen |= low_of(*key) == low;
    }
    seen
}

// The sequence counts at place i.
fn has_key(memory: &[u64], i: usize, sequence: u64) -> bool
    requires { i < senders_most }
    ensures { result ≡ has (remembered (place_in memory.now i)) sequence }
{
    let n = (words::word(memory, USED + i) as usize).min(KEYS_EACH);
    let a = SEQUENCES + KEYS_EACH * i;
    (0..n).any(|j| words::word(memory, a + j) == sequence)
}

// The key is remembered.
pub fn is_remembered(memory: &[u64], sender: u64, sequence: u64) -> bool
    ensures { result ≡ is_remembered_lem (memory_in memory.now) (key_of sender sequence) }
{
    let Some(i) = own_place(memory, sender) else {
        return false;
    };
    if memory.len() == WORDS && !may_have(memory, i, sequence) {
        return false;
    }
    has_key(memory, i, sequence)
}

// ---- a key is remembered

// The place for a delivery: the sender's own, else a free one, else that of the sender whose latest delivery lies furthest back.
fn place_for(memory: &[u64], sender: u64) -> usize
    ensures { result ≡ place_for_lem (memory_in memory.now) sender }
{
    if let Some(own) = own_place(memory, sender) {
        return own;
    }
    if let Some(free) = free_place(memory) {
        return free;
    }
    ranks::lowest_ranked(memory, turns(), SENDERS_MOST)
}

// How many sequences of the sender count at place i.
fn count_of(memory: &[u64], i: usize, sender: u64) -> u64
    requires { i < senders_most }
    ensures { result ≡ count_of sender (place_in memory.now i) }
{
    if is_of(memory, i, sender) {
        return words::word(memory, USED + i);
    }
    0
}

// Each of the 32 numbers from a on but the last takes the next one's place.
fn shift(memory: &mut [u64], a: usize)
    requires { a + keys_each ≤ length memory.old }
    ensures { memory.new ≡ shifted_in memory.old a (keys_each - 1) }
{
    memory.copy_within(a + 1..a + KEYS_EACH, a);
}

// Place i has n sequences and one more; of 32 the oldest is dropped.
fn add(memory: &mut [u64], i: usize, n: u64, sequence: u64)
    requires { (i < senders_most) × (length memory.old ≡ memory_words) }
    ensures { memory.new ≡ added_in memory.old i n sequence }
{
    let a = SEQUENCES + KEYS_EACH * i;
    if n < KEYS_EACH as u64 {
        words::put_word(&mut *memory, a + n as usize, sequence);
        words::put_word(&mut *memory, USED + i, n + 1);
        return;
    }
    shift(&mut *memory, a);
    words::put_word(&mut *memory, a + (KEYS_EACH - 1), sequence);
}

// Place i is the sender's, and its delivery the latest of all.
fn settle(memory: &mut [u64], i: usize, sender: u64)
    requires { i < senders_most }
    ensures { memory.new ≡ settled_in memory.old i sender }
{
    let t = words::word(&*memory, TURNS + i);
    ranks::lower_ranks(&mut *memory, turns(), SENDERS_MOST, t);
    words::put_word(&mut *memory, TURNS + i, SENDERS_MOST as u64 - 1);
    words::put_word(memory, i, sender);
}

// One more key: its sender's delivery is the latest of all.
pub fn remember(memory: &mut [u64], sender: u64, sequence: u64)
    ensures { Left memory.old (steps.remember (memory_in memory.old) (key_of sender sequence)) memory.new }
{
    if memory.len() != WORDS {
        return;
    }
    let i = place_for(&*memory, sender);
    let n = count_of(&*memory, i, sender);
    settle(&mut *memory, i, sender);
    add(memory, i, n, sequence);
}
