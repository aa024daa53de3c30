// The slots of a receiver's state: a block of words for each, after the words of its head. Every public function is total over any slice.
#![tactic(auto)]

ghost use Rattle.std.specs.Prelude.{◌≡◌, ◌+◌, ◌<◌, get_or, replicate};
ghost use Rattle.wire.specs.Overlay.{overlay};
ghost use Rattle.steps.specs.Search.{all_below, count};
ghost use Rattle.datagram.specs.Limits.{max_name};
ghost use Rattle.steps.specs.Limits.{slot_count};
ghost use Rattle.slots.specs.Words.{block_at, key_in, free_in, busy_in, first_below, sound_in};

// How many messages may be open at once.
pub const SLOTS: usize = 8;
// The words before the first slot's: the store's length at opening, and the slot size.
pub const HEAD: usize = 2;
// Which word of a slot is which; from HELD on a bit for each fragment says whether it is held.
pub const SENDER: usize = 0;

pub const SEQUENCE: usize = 1;

pub const SIZE: usize = 2;

pub const COUNT: usize = 3;

pub const TURN: usize = 4;

pub const HELD: usize = 5;

pub const HELD_WORDS: usize = held_bits::WORDS;
// The words of a slot.
pub const BLOCK: usize = HELD + HELD_WORDS;

// Word j of slot i: SENDER, SEQUENCE, SIZE, COUNT, TURN, or one of those from HELD on. A place that saturates is past the end, as the true one is.
pub fn word_of(state: &[u64], i: usize, j: usize) -> u64
    ensures { result ≡ get_or state.now (block_at i + j) 0 }
{
    let block = HEAD.saturating_add(BLOCK.saturating_mul(i));
    words::word(state, block.saturating_add(j))
}

fn is_key(state: &[u64], i: usize, sender: u64, sequence: u64) -> bool
    requires { i < slot_count }
    ensures { result ≡ key_in state.now sender sequence i }
{
    word_of(state, i, COUNT) != 0
        && word_of(state, i, SENDER) == sender
        && word_of(state, i, SEQUENCE) == sequence
}

// The lowest slot in which the key is open.
pub fn find_open(state: &[u64], sender: u64, sequence: u64) -> Option<usize>
    ensures { result ≡ first_below (key_in state.now sender sequence) slot_count }
{
    (0..SLOTS).find(|i| is_key(state, *i, sender, sequence))
}

// The lowest free slot.
pub fn lowest_free(state: &[u64]) -> Option<usize>
    ensures { result ≡ first_below (free_in state.now) slot_count }
{
    (0..SLOTS).find(|i| word_of(state, *i, COUNT) == 0)
}

// How many slots are open.
pub fn open_count(state: &[u64]) -> u64
    ensures { result ≡ count (busy_in state.now) slot_count }
{
    (0..SLOTS)
        .filter(|i| word_of(state, *i, COUNT) != 0)
        .count() as u64
}

fn is_sound(state: &[u64], room: u64, i: usize) -> bool
    requires { i < slot_count }
    ensures { result ≡ sound_in state.now room i }
{
    word_of(state, i, COUNT) == 0
        || word_of(state, i, SIZE) <= room
            && word_of(state, i, COUNT) <= datagram::MAX_FRAGMENTS as u64
}

// Of every open slot the size is at most that of a slot, and the count at most that of fragments.
pub fn all_sound(state: &[u64], room: u64) -> bool
    ensures { result ≡ all_below slot_count (sound_in state.now room) }
{
    (0..SLOTS).all(|i| is_sound(state, room, i))
}

// ---- names

// A name with zeros after it.
pub fn zero_filled(name: &[u8]) -> [u8; datagram::MAX_NAME]
    ensures { result ≡ overlay (replicate max_name 0) 0 name.now }
{
    let mut out = [0u8; datagram::MAX_NAME];
    wire::put_bytes(&mut out, 0, name);
    out
}
