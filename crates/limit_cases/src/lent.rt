// What is lent to the receiver, and states that no calls make. A case is: the words of the state and the bytes of the names that are lent, 0 for
// one too few, 1 for as many as must be, 2 for one more; of opening then the store's length; of a datagram the lengths of store and ledger;
// and two words of a state, each as what it holds and a value.
ghost use Rattle.std.specs.Prelude.{◌≤◌};

use output::Output;
use steps::Answer;

// The bytes of the store at opening.
const STORE: usize = 64;

// One more of each than must be, and twice the store.
const STATE_WORDS: usize = receiver::STATE_WORDS + 1;

const NAME_BYTES: usize = receiver::NAME_BYTES + 1;

const STORE_BYTES: usize = 2 * STORE;

const LEDGER: usize = receiver::LEDGER + 1;

// The state and its names. The ledger, which is large, and the store are made only where a datagram comes.
#[derive(Drop)]
struct Lent {
    state: [u64; STATE_WORDS],
    names: [u8; NAME_BYTES],
}

// How many words and bytes are lent: of 0 one too few, of 1 as many as must be, of more one more.
fn state_words(which: usize) -> usize
    ensures { result ≤ STATE_WORDS }
{
    receiver::STATE_WORDS - 1 + which.min(2)
}

fn name_bytes(which: usize) -> usize
    ensures { result ≤ NAME_BYTES }
{
    receiver::NAME_BYTES - 1 + which.min(2)
}

// The words before those of the last slot, and of the memory before its last sender's.
const LAST_SLOT: usize = slots::HEAD + slots::BLOCK * (slots::SLOTS - 1);

const LAST_SENDER: usize = receiver_state::MEMORY + memory::SENDERS_MOST - 1;

// The word of a state that holds: 1 the slot size, 2 slot 0's P, 3 its n, 4 how many keys the memory's first sender has, which stands
// after the senders; 5, 6 and 7 the keys of the last sender, and P and n of the last slot. Any other: none.
fn spot(which: usize) -> usize {
    match which {
        1 => 1,
        2 => slots::HEAD + slots::SIZE,
        3 => slots::HEAD + slots::COUNT,
        4 => receiver_state::MEMORY + memory::SENDERS_MOST,
        5 => LAST_SENDER + memory::SENDERS_MOST,
        6 => LAST_SLOT + slots::SIZE,
        7 => LAST_SLOT + slots::COUNT,
        _ => receiver::STATE_WORDS,
    }
}

impl Lent {
    fn new() -> Lent {
        Lent {
            state: [0u64; STATE_WORDS],
            names: [0u8; NAME_BYTES],
        }
    }

    // A word of the state as the case has it from a place on.
    fn alter(&mut self, case: &[u8], place: usize)
        requires { place ≤ 64 }
    {
        words::put_word(
            &mut self.state,
            spot(crate::number(case, place)),
            wire::number(case, place + 8, 8),
        );
    }

    // Opened, and two words of the state as the case has them from a place on.
    fn prepare(&mut self, case: &[u8], place: usize)
        requires { place ≤ 32 }
    {
        let state = &mut self.state[..];
        let names = &mut self.names[..];
        let _ = open_and_payload::open(
            &mut state[..state_words(1)],
            &mut names[..name_bytes(1)],
            STORE,
        );
        self.alter(case, place);
        self.alter(case, place + 16);
    }
}

pub(crate) fn pour_answer(out: &mut Output, answer: Answer) {
    match answer {
        Answer::Refused(refusal) => crate::pour_refused(out, refusal),
        Answer::Kept => out.pour(b"kept"),
        Answer::Repeat => out.pour(b"repeat"),
        Answer::Delivered(_, n) => out.pour_counted(b"delivered ", n as u64),
    }
}

// The slot size of a store of so many bytes.
pub(crate) fn opened(out: &mut Output, case: &[u8]) {
    let mut lent = Lent::new();
    let opened = open_and_payload::open(
        &mut lent.state[..state_words(crate::number(case, 0))],
        &mut lent.names[..name_bytes(crate::number(case, 8))],
        crate::number(case, 16),
    );
    match opened {
        Ok(()) => out.pour_counted(b"slot size ", words::word(&lent.state, spot(1))),
        Err(refusal) => crate::pour_refused(out, refusal),
    }
}

// What is answered to a small message over what is lent.
pub(crate) fn received(out: &mut Output, case: &[u8]) {
    let mut lent = Lent::new();
    lent.prepare(case, 32);
    let mut store = [0u8; STORE_BYTES];
    let mut ledger = [0u32; LEDGER];
    let store_bytes = crate::number(case, 16).min(STORE_BYTES);
    let numbers = crate::number(case, 24).min(LEDGER);
    let outcome = receiver::receive(
        &mut lent.state[..state_words(crate::number(case, 0))],
        &mut lent.names[..name_bytes(crate::number(case, 8))],
        &mut store[..store_bytes],
        &mut ledger[..numbers],
        0,
        b"LC02\x00\x00\x00\x07P\x00A",
    );
    pour_answer(out, outcome.answer);
}

// What is answered to forgetting sender 0.
pub(crate) fn forgotten(out: &mut Output, case: &[u8]) {
    let mut lent = Lent::new();
    lent.prepare(case, 16);
    let forgot = receiver::forget(
        &mut lent.state[..state_words(crate::number(case, 0))],
        &mut lent.names[..name_bytes(crate::number(case, 8))],
        0,
    );
    match forgot {
        Ok(()) => out.pour(b"done"),
        Err(refusal) => crate::pour_refused(out, refusal),
    }
}
