// Over the places of a memory of keys: a sender's are freed, and whether all are in order, which is refusal 9. Every public function is total over any slice.
#![tactic(auto)]

ghost use Rattle.std.specs.Prelude.{◌≡◌, ℕ, ◌≤◌, ◌<◌, length, get_or};
ghost use Rattle.steps.specs.Limits.{senders_most};
ghost use Rattle.steps.specs.Memory.{forget_keys, memory_ok};
ghost use Rattle.memory.specs.Words.{used_at, memory_words, memory_in, Left};
ghost use Rattle.memory_places.specs.Inside.{freed_at, freed_in};

// ---- a sender is forgotten

// Place i is freed where it is the sender's.
fn free_at(memory: &mut [u64], i: usize, sender: u64)
    requires { i < senders_most }
    ensures { memory.new ≡ freed_at memory.old sender i }
{
    if words::word(&*memory, i) != sender {
        return;
    }
    words::put_word(memory, memory::USED + i, 0);
}

fn free_all(memory: &mut [u64], sender: u64)
    ensures { memory.new ≡ freed_in memory.old sender senders_most }
{
    for i in 0..memory::SENDERS_MOST {
        free_at(&mut *memory, i, sender);
    }
}

// The sender's place is free.
pub fn forget(memory: &mut [u64], sender: u64)
    ensures { Left memory.old (forget_keys (memory_in memory.old) sender) memory.new }
{
    if memory.len() != memory::WORDS {
        return;
    }
    free_all(memory, sender);
}

// ---- refusal 9

// All bits of the counts of a memory together: no count is above.
fn all_counts(memory: &[u64]) -> u64
    requires { length memory.now ≡ memory_words }
    ensures { (i : ℕ) → i < senders_most → get_or memory.now (used_at i) 0 ≤ result }
{
    memory[memory::USED..memory::USED + memory::SENDERS_MOST]
        .iter()
        .fold(0, |all, count| all | *count)
}

// One by one, over any slice.
fn each_in_order(memory: &[u64]) -> bool
    ensures { result ≡ memory_ok (memory_in memory.now) }
{
    let most = memory::KEYS_EACH as u64;
    (0..memory::SENDERS_MOST).all(|i| words::word(memory, memory::USED + i) <= most)
}

// Not over 16 senders, for which alone there are places, and not over 32 keys for one.
pub fn in_order(memory: &[u64]) -> bool
    ensures { result ≡ memory_ok (memory_in memory.now) }
{
    if memory.len() != memory::WORDS {
        return each_in_order(memory);
    }
    // Most often no count is even near.
    if all_counts(memory) <= memory::KEYS_EACH as u64 {
        return true;
    }
    each_in_order(memory)
}
