// What the receiver answers. `specs/` has the step list over these types.
#![tactic(auto)]

use refusals::Refusal;

// A message's key. The sequence has 64 bits, since a lent state holds it in such a word.
#[derive(Clone, Copy, Debug, PartialEq, Eq)]
pub struct Key {
    pub sender: u64,
    pub sequence: u64,
}

// Where a delivered payload begins: in the datagram, or in the store.
#[derive(Clone, Copy, Debug, PartialEq, Eq)]
pub enum PayloadAt {
    InDatagram(usize),
    InStore(usize),
}

// The answer to a datagram.
#[derive(Clone, Copy, Debug, PartialEq, Eq)]
pub enum Answer {
    Refused(Refusal),
    Kept,
    Repeat,
    // with its place and its length
    Delivered(PayloadAt, usize),
}

// The key of the slot that was emptied for another message.
// Kept: document 01, "The form each place takes", has a second enum for the emptied key.
#[derive(Clone, Copy, Debug, PartialEq, Eq)]
pub enum Emptied {
    Nobody,
    Was(Key),
}
