// The flight on disk: a log of every datagram with its sender and arrival tick, and its reader. A log determines its edition, in
// edition 2 its payload limit, and its entries, and they determine it.
#![tactic(auto)]

mod reader;

pub use reader::{EntryAt, Limits, first_entry, limits_in, next_entry, place_after, read_on};

// The first byte of a log: of those that are written, and of edition 1, which is still read.
pub const EDITION: u8 = 2;

pub const EDITION_ONE: u8 = 1;

// The limits of edition 1.
pub const PAYLOAD_ONE: usize = 262144;

pub const FRAGMENTS_ONE: u32 = 256;
