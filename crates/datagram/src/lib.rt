// What a datagram says: its header as numbers, with the places of its name and its data.
#![tactic(auto)]

ghost use Rattle.std.specs.Prelude.{◌≡◌, ◌==◌, ◌+◌, ◌≤◌, ◌<◌, min, length, drop, position};
ghost use Rattle.wire.specs.Bytes.{be};
ghost use Rattle.datagram.specs.Name.{until_zero_lem, name_length_lem};
ghost use Rattle.datagram.specs.Limits.{max_datagram, max_name};
ghost use Rattle.datagram.specs.Read.{formed, read_small_lem, read_fragment_lem, part_of, told};
ghost use Rattle.datagram.specs.Said.{Reads};

use refusals::Refusal;

// The largest payload, the most fragments of a message, and the longest datagram.
pub const MAX_PAYLOAD: usize = 1048576;

pub const MAX_FRAGMENTS: u32 = 1024;

pub const MAX_DATAGRAM: usize = 65535;

// The longest name.
pub const MAX_NAME: usize = names::MAX_NAME;

// "LC02" and "LC03", as numbers of four bytes.
pub const SMALL_MAGIC: u32 = 0x4c433032;

pub const FRAGMENT_MAGIC: u32 = 0x4c433033;

// A part of a datagram: where it begins, and its length.
// Kept: the definitions name it, as those of moss name its own, and neither crate stands on the other.
#[derive(Clone, Copy, Debug, PartialEq, Eq)]
pub struct Place {
    pub at: usize,
    pub len: usize,
}

// What a datagram of good form says. A small message is told as the only fragment of its payload.
// Kept: `small` says no field away, since all are so of both kinds; Said `says` and Places `KindForm` go by it.
#[derive(Clone, Copy, Debug, PartialEq, Eq)]
pub struct Header {
    pub small: bool,
    pub sequence: u32,
    pub size: u32,
    pub offset: u32,
    pub number: u32,
    pub count: u32,
    pub name: Place,
    pub payload: Place,
}

// Where the first zero byte stands.
fn first_zero(b: &[u8]) -> Option<usize>
    ensures { result ≡ position (λ x. x == 0) b.now }
{
    b.iter().position(|x| *x == 0)
}

// How many bytes stand before the first zero byte, at most one more than a name has.
fn until_zero(b: &[u8]) -> usize
    ensures { result ≡ min (until_zero_lem b.now) (max_name + 1) }
{
    let n = b.len().min(MAX_NAME + 1);
    first_zero(&b[..n]).unwrap_or(n)
}

// The length of the good name that b begins with, before a zero byte.
fn name_length(b: &[u8]) -> Option<usize>
    ensures { result ≡ name_length_lem b.now }
{
    let c = until_zero(b);
    if b.len() <= c {
        return None;
    }
    if names::good_name(&b[..c]) {
        return Some(c);
    }
    None
}

// The big-endian numbers of two and of four bytes at a place. They are read by plain indexes: the callers have asked the length, once.
fn two(d: &[u8], at: usize) -> u32
    requires { at + 2 ≤ length d.now }
    ensures { (result ≡ be 2 (drop at d.now)) × (result < 65536) }
{
    u32::from(u16::from_be_bytes([d[at], d[at + 1]]))
}

fn four(d: &[u8], at: usize) -> u32
    requires { at + 4 ≤ length d.now }
    ensures { result ≡ be 4 (drop at d.now) }
{
    u32::from_be_bytes([d[at], d[at + 1], d[at + 2], d[at + 3]])
}

fn read_small(d: &[u8]) -> Result<Header, Refusal>
    requires { (8 ≤ length d.now) × (length d.now ≤ max_datagram) }
    ensures { told result ≡ read_small_lem d.now }
{
    let Some(c) = name_length(&d[8..]) else {
        return Err(Refusal::BadName);
    };
    let at = 9 + c;
    let n = d.len().saturating_sub(at);
    Ok(Header {
        small: true,
        sequence: four(d, 4),
        size: n as u32,
        offset: 0,
        number: 0,
        count: 1,
        name: Place { at: 8, len: c },
        payload: Place { at: at, len: n },
    })
}

// The fragment whose name stands there, and whose data begins at a place.
fn formed_of(d: &[u8], name: Place, at: usize) -> Result<Header, Refusal>
    requires { (20 ≤ length d.now) × (length d.now ≤ max_datagram) }
    ensures { told result ≡ formed d.now name at }
{
    let n = d.len().saturating_sub(at);
    let h = Header {
        small: false,
        sequence: four(d, 4),
        size: four(d, 8),
        offset: four(d, 12),
        number: two(d, 16),
        count: two(d, 18),
        name: name,
        payload: Place { at: at, len: n },
    };
    if forms::good_fragment(h.size, h.offset, h.number, h.count, n as u32) {
        return Ok(h);
    }
    Err(Refusal::FragmentForm)
}

fn read_fragment(d: &[u8], max_size: usize, max_count: u32) -> Result<Header, Refusal>
    requires { (20 ≤ length d.now) × (length d.now ≤ max_datagram) }
    ensures { told result ≡ read_fragment_lem max_size max_count d.now }
{
    let count = two(d, 18);
    if count == 0 {
        return Err(Refusal::FragmentCount);
    }
    if max_count < count {
        return Err(Refusal::FragmentCount);
    }
    let number = two(d, 16);
    if count <= number {
        return Err(Refusal::FragmentCount);
    }
    if max_size < four(d, 8) as usize {
        return Err(Refusal::PayloadTooLarge);
    }
    if number != 0 {
        return formed_of(d, Place { at: 20, len: 0 }, 20);
    }
    let Some(c) = name_length(&d[20..]) else {
        return Err(Refusal::BadName);
    };
    formed_of(d, Place { at: 20, len: c }, 21 + c)
}

// What a datagram says, for payloads of at most max_size bytes in at most max_count fragments.
pub fn read_datagram(d: &[u8], max_size: usize, max_count: u32) -> Result<Header, Refusal>
    ensures { Reads max_size max_count d.now (told result) }
{
    if MAX_DATAGRAM < d.len() {
        return Err(Refusal::DatagramTooLong);
    }
    if d.len() < 8 {
        return Err(Refusal::TooShort);
    }
    let magic = four(d, 0);
    if magic == SMALL_MAGIC {
        return read_small(d);
    }
    if magic != FRAGMENT_MAGIC {
        return Err(Refusal::NotLcm);
    }
    if d.len() < 20 {
        return Err(Refusal::TooShort);
    }
    read_fragment(d, max_size, max_count)
}

// A part of a datagram by its place.
pub fn part_at(d: &[u8], p: Place) -> &[u8]
    ensures { result.now ≡ part_of d.now p }
{
    wire::part(d, p.at, p.len)
}
