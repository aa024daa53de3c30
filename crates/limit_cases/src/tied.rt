// States in which two slots or more are meant alike, or an open key is remembered, which no calls make. Eight messages are open, each of two
// fragments of a byte of which the first is held; a case is four words, each as the slot (8 for none; 9 for the memory), which word of it, and a
// value; then the sequence, the number and the count of the fragment that comes, of as many bytes as fragments: with a count of 0 a small
// message comes.
ghost use Rattle.std.specs.Prelude.{◌≤◌};

use output::Output;
use receiver::Outcome;
use steps::{Answer, Emptied, PayloadAt};

const STORE: usize = 64;

// What is lent to the receiver, and the datagram that comes.
#[derive(Drop)]
struct Tied {
    state: [u64; receiver::STATE_WORDS],
    names: [u8; receiver::NAME_BYTES],
    store: [u8; STORE],
    ledger: [u32; receiver::LEDGER],
    d: [u8; 23],
}

// A small message of one byte, of the name P. Answers its length.
fn small(d: &mut [u8], sequence: u64) -> usize {
    wire::put_bytes(d, 0, b"LC02");
    wire::put_number(d, 4, 4, sequence);
    wire::put_bytes(d, 8, b"P\x00A");
    11
}

// Fragment k of n of a message of n bytes: one byte, after the name P in the first. Answers its length.
fn fragment(d: &mut [u8], sequence: u64, k: u64, n: u64) -> usize {
    wire::put_bytes(d, 0, b"LC03");
    wire::put_number(d, 4, 4, sequence);
    wire::put_number(d, 8, 4, n);
    wire::put_number(d, 12, 4, k);
    wire::put_number(d, 16, 2, k);
    wire::put_number(d, 18, 2, n);
    if k == 0 {
        wire::put_bytes(d, 20, b"P\x00A");
        return 23;
    }
    wire::put_bytes(d, 20, b"A");
    21
}

// The word of a state that a case names from a place on.
fn spot(case: &[u8], place: usize) -> usize
    requires { place ≤ 72 }
{
    let slot = crate::number(case, place);
    if slot < slots::SLOTS {
        return slots::HEAD + slots::BLOCK * slot + crate::number(case, place + 8).min(slots::TURN);
    }
    if slot == 9 {
        return receiver_state::MEMORY + crate::number(case, place + 8).min(memory::WORDS);
    }
    receiver::STATE_WORDS
}

// What comes, by the case.
fn coming(d: &mut [u8], case: &[u8]) -> usize {
    let sequence = wire::number(case, 96, 8);
    match wire::number(case, 112, 8) {
        0 => small(d, sequence),
        n => fragment(d, sequence, wire::number(case, 104, 8), n),
    }
}

impl Tied {
    // The first n bytes of the datagram are received.
    fn receive(&mut self, n: usize) -> Outcome {
        receiver::receive(
            &mut self.state,
            &mut self.names,
            &mut self.store,
            &mut self.ledger,
            0,
            wire::part(&self.d, 0, n),
        )
    }

    // A fresh receiver, in which the eight messages are opened, one in each slot.
    fn open_all(&mut self) {
        let _ = open_and_payload::open(&mut self.state, &mut self.names, STORE);
        for i in 0..8 {
            let n = fragment(&mut self.d, i, 0, 2);
            let _ = self.receive(n);
        }
    }

    // The four words as the case has them.
    fn alter(&mut self, case: &[u8]) {
        for i in 0..4usize {
            let place = 24 * i;
            words::put_word(
                &mut self.state,
                spot(case, place),
                wire::number(case, place + 16, 8),
            );
        }
    }
}

fn pour_delivered(out: &mut Output, place: PayloadAt, n: usize) {
    out.pour_counted(b"delivered ", n as u64);
    match place {
        PayloadAt::InDatagram(p) => out.pour_counted(b" datagram ", p as u64),
        PayloadAt::InStore(p) => out.pour_counted(b" store ", p as u64),
    }
}

fn pour_outcome(out: &mut Output, answer: Answer, emptied: Emptied) {
    match answer {
        Answer::Delivered(place, n) => pour_delivered(out, place, n),
        _ => crate::lent::pour_answer(out, answer),
    }
    if let Emptied::Was(key) = emptied {
        out.pour_counted(b" emptied ", key.sequence);
    }
}

// What is answered to the case's datagram over such a state.
pub(crate) fn answered(out: &mut Output, case: &[u8]) {
    let mut tied = Tied {
        state: [0u64; receiver::STATE_WORDS],
        names: [0u8; receiver::NAME_BYTES],
        store: [0u8; STORE],
        ledger: [0u32; receiver::LEDGER],
        d: [0u8; 23],
    };
    tied.open_all();
    tied.alter(case);
    let n = coming(&mut tied.d, case);
    let outcome = tied.receive(n);
    pour_outcome(out, outcome.answer, outcome.emptied);
}
