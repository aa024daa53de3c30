// MossUDP packets: 4 bytes of length, 10 of session, 4 of sequence, a type U, H or E, and for U message blocks, each a 2-byte length and
// its bytes. One walk over the blocks serves the reader, the n-th message and, by what is wrong with blocks, the writer.
#![tactic(auto)]

ghost use Rattle.std.specs.Prelude.{◌≡◌, ◌+◌, ◌<◌, ◌≤◌, drop, replicate};
ghost use Rattle.wire.specs.Bytes.{be};
ghost use Rattle.wire.specs.Overlay.{overlay};
ghost use Rattle.moss.specs.Blocks.{messages_in};
ghost use Rattle.moss.specs.Packet.{packet_of, held, carried, kind_in, block_fault_lem};
ghost use Rattle.moss.specs.Message.{place_in, message_in};
ghost use Rattle.moss.specs.Answers.{headers_of, letter_of, KindOf, faults, reads, locates};
ghost use Rattle.moss.specs.Limits.{head_length, session_length};
ghost use Rattle.moss.specs.InsideWalk.{start, past, walked, looked, looks};

use refusals::Refusal;

// The bytes of a session, of a header, and of the longest packet.
pub const SESSION: usize = 10;

pub const HEAD: usize = 4 + SESSION + 4 + 1;

pub const MAX_PACKET: usize = 65535;

// Where the session, the sequence and the type stand.
pub const SESSION_AT: usize = 4;

pub const SEQUENCE_AT: usize = 14;

pub const KIND_AT: usize = 18;

// The types: data, heartbeat, end of session.
#[derive(Clone, Copy, Debug, PartialEq, Eq)]
pub enum Kind {
    Data,
    Heartbeat,
    End,
}

impl TryFrom<u8> for Kind {
    type Error = Refusal;

    ghost try_from_gives = { KindOf };

    fn try_from(letter: u8) -> Result<Kind, Refusal> {
        match letter {
            b'U' => Ok(Kind::Data),
            b'H' => Ok(Kind::Heartbeat),
            b'E' => Ok(Kind::End),
            _ => Err(Refusal::PacketKind),
        }
    }
}

impl From<Kind> for u8 {
    ghost from_gives = { λ kind letter. letter ≡ letter_of kind };

    fn from(kind: Kind) -> u8 {
        match kind {
            Kind::Data => b'U',
            Kind::Heartbeat => b'H',
            Kind::End => b'E',
        }
    }
}

// A packet's numbers: where its session stands, its sequence, its type, its count of messages.
#[derive(Clone, Copy, Debug, PartialEq, Eq)]
pub struct Header {
    pub session: usize,
    pub sequence: u32,
    pub kind: Kind,
    pub count: usize,
}

// Where a message begins, and its length.
#[derive(Clone, Copy, Debug, PartialEq, Eq)]
pub struct Place {
    pub at: usize,
    pub len: usize,
}

// How many blocks were passed, and the message that was looked out for, once it was passed.
#[derive(Clone, Copy)]
struct Trail {
    count: usize,
    found: Option<Place>,
}

// Nothing was passed yet.
const START: Trail = Trail {
    count: 0,
    found: None,
};

// The length of the block at a place.
fn size_at(b: &[u8], at: usize) -> usize
    ensures { (result ≡ be 2 (drop at b.now)) × (result < 65536) }
{
    wire::number(b, at, 2) as usize
}

// Past a block at a place with a message of m bytes.
fn pass(t: Trail, n: usize, at: usize, m: usize) -> Trail
    requires { (t.count ≤ at) × (at + 2 < 18446744073709551616) }
    ensures { result ≡ past t n at m }
{
    let count = t.count;
    if count == n {
        let place = Place { at: at + 2, len: m };
        return Trail {
            count: count + 1,
            found: Some(place),
        };
    }
    Trail {
        count: count + 1,
        found: t.found,
    }
}

// Goes over the blocks from a place to the end, and looks out for message n.
fn walk(b: &[u8], from: usize, n: usize) -> Result<Trail, Refusal>
    ensures { result ≡ walked start n from (messages_in (drop from b.now)) }
{
    let mut t = START;
    let mut at = from;
    // Kept: a `while`, since each block says how far the next one is.
    while at < b.len() {
        let m = size_at(b, at);
        if b.len() - at < 2 + m {
            return Err(Refusal::BlocksDoNotFill);
        }
        t = pass(t, n, at, m);
        at += 2 + m;
    }
    Ok(t)
}

// What a packet of this type carries from a place to its end: H and E carry nothing.
fn walk_kind(kind: Kind, b: &[u8], from: usize, n: usize) -> Result<Trail, Refusal>
    ensures { result ≡ walked start n from (carried (letter_of kind) (drop from b.now)) }
{
    if let Kind::Data = kind {
        return walk(b, from, n);
    }
    if from < b.len() {
        return Err(Refusal::BlocksDoNotFill);
    }
    Ok(START)
}

// What is wrong with message blocks for a packet of this type, 52 or 53. The writer asks it.
pub fn block_fault(kind: u8, blocks: &[u8]) -> Result<(), Refusal>
    ensures { faults result ≡ block_fault_lem kind blocks.now }
{
    let kind = Kind::try_from(kind)?;
    walk_kind(kind, blocks, 0, 0)?;
    Ok(())
}

// The number of four bytes at a place.
fn word_at(b: &[u8], at: usize) -> u32
    ensures { result ≡ be 4 (drop at b.now) }
{
    wire::number(b, at, 4) as u32
}

// What a packet of known type says, with the place of message n.
fn look_inside(p: &[u8], kind: Kind, n: usize) -> Result<(Header, Option<Place>), Refusal>
    requires { letter_of kind ≡ kind_in p.now }
    ensures { looks result ≡ looked n (held p.now (carried (letter_of kind) (drop head_length p.now))) }
{
    let t = walk_kind(kind, p, HEAD, n)?;
    let header = Header {
        session: SESSION_AT,
        sequence: word_at(p, SEQUENCE_AT),
        kind,
        count: t.count,
    };
    Ok((header, t.found))
}

// What a packet says, with the place of message n.
fn look(p: &[u8], n: usize) -> Result<(Header, Option<Place>), Refusal>
    ensures { looks result ≡ looked n (packet_of p.now) }
{
    if p.len() < HEAD {
        return Err(Refusal::PacketTooShort);
    }
    if wire::number(p, 0, 4) != p.len() as u64 {
        return Err(Refusal::PacketLength);
    }
    if MAX_PACKET < p.len() {
        return Err(Refusal::PacketLength);
    }
    let kind = Kind::try_from(p[KIND_AT])?;
    look_inside(p, kind, n)
}

// What a packet says: where its session stands, its sequence, its type and how many messages it carries.
pub fn read_packet(p: &[u8]) -> Result<Header, Refusal>
    ensures { reads result ≡ headers_of (packet_of p.now) }
{
    let (header, _) = look(p, 0)?;
    Ok(header)
}

// Where the n-th message (from 0) begins, and its length.
pub fn message_place(p: &[u8], n: usize) -> Result<Place, Refusal>
    ensures { locates result ≡ place_in (packet_of p.now) n }
{
    let (_, found) = look(p, n)?;
    found.ok_or(Refusal::NoSuchMessage)
}

// The n-th message as a part of the packet; for a refusal it is empty.
pub fn message(p: &[u8], n: usize) -> &[u8]
    ensures { result.now ≡ message_in (packet_of p.now) n }
{
    match message_place(p, n) {
        Ok(place) => wire::part(p, place.at, place.len),
        Err(_) => wire::part(p, 0, 0),
    }
}

// The ten bytes of a session at a place; zeros past the end.
pub fn session_at(b: &[u8], at: usize) -> [u8; SESSION]
    ensures { result ≡ overlay (replicate session_length 0) 0 (drop at b.now) }
{
    let mut session = [0u8; SESSION];
    wire::put_bytes(&mut session, 0, wire::part(b, at, b.len()));
    session
}
