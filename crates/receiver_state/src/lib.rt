// The words of a receiver's state, and whether they are in order. `specs/View` has the machine of the step list that they show.
#![tactic(auto)]

ghost use Rattle.std.specs.Prelude.{◌≡◌};
ghost use Rattle.steps.specs.Limits.{slot_size_of};
ghost use Rattle.receiver_state.specs.View.{ready};

// Which words of the head are which: the store's length at opening, and the slot size.
pub const STORE_LENGTH: usize = 0;

pub const SLOT_SIZE: usize = 1;
// Where the memory of keys begins in the state, after the slots.
pub const MEMORY: usize = slots::HEAD + slots::BLOCK * slots::SLOTS;
// The words of a state, and the bytes of its names.
pub const STATE_WORDS: usize = MEMORY + memory::WORDS;

pub const NAME_BYTES: usize = datagram::MAX_NAME * slots::SLOTS;
// The ledger's numbers: offset and length of each fragment of a slot, and of all.
pub const SLOT_LEDGER: usize = 2 * datagram::MAX_FRAGMENTS as usize;

pub const LEDGER: usize = SLOT_LEDGER * slots::SLOTS;

// The bytes of a slot in a store of so many bytes.
pub fn slot_size(store_len: usize) -> usize
    ensures { result ≡ slot_size_of store_len }
{
    (store_len / slots::SLOTS).min(datagram::MAX_PAYLOAD)
}

// Not refused by 9: the state and the names have their lengths, the store and the ledger are those of opening, and every word is within its bounds.
pub fn is_ready(state: &[u64], names: &[u8], store: usize, ledger: usize) -> bool
    ensures { result ≡ ready state.now names.now store ledger }
{
    if state.len() != STATE_WORDS {
        return false;
    }
    if names.len() != NAME_BYTES {
        return false;
    }
    if store as u64 != state[STORE_LENGTH] {
        return false;
    }
    if ledger != LEDGER {
        return false;
    }
    let room = state[SLOT_SIZE];
    if room != slot_size(store) as u64 {
        return false;
    }
    if !slots::all_sound(state, room) {
        return false;
    }
    memory_places::in_order(&state[MEMORY..])
}
