// Input of any size in a stream. A lent buffer holds what was read and not yet taken, and one record at a time stands whole in it. No
// contract can say what the system gives: they say that every byte that came is taken once and in order.
#![tactic(auto)]

ghost use Rattle.std.specs.Prelude.{◌≡◌, ◌-◌, ◌≤◌, ◌<◌, length, drop};
ghost use Rattle.std.proofs.Math.Seq.{slice};
ghost use Rattle.wire.specs.Bytes.{be};
ghost use Rattle.stream.specs.Records.{head_of, body_length_lem, Gives, told};
ghost use Rattle.stream.specs.Whole.{HoldsAll, told_all};
ghost use Rattle.stream.specs.InsideWindows.{Ready, Within, Fronted, Grown, Dropped, Headed};

use std::io::{Read, Stdin};

// More records than any input has: a proved loop has to end, so a program counts its records up to this.
pub const MANY: u64 = 18446744073709551615;

// The bytes of a program's input buffer: a record of any length and as much again.
pub const HOLDS: usize = 131072;

// How records stand in the input: after a 2-byte length, after a 4-byte length, as one byte and a 4-byte count of 8-byte numbers, or as an
// entry of a flight: an 8-byte sender, an 8-byte tick and a 2-byte length.
#[derive(Clone, Copy, Debug, PartialEq, Eq)]
pub enum Kind {
    Bytes2,
    Bytes4,
    Numbers,
    Entry,
}

// The unread bytes of the buffer: from `at` up to `end`.
// Kept: the buffer stands beside it, since a record is read in the buffer while what follows it is unread, and since a program's contract
// (record_lines' `Tells`) has the two apart. Only the loop over records passes them on together.
#[derive(Clone, Copy, Debug, PartialEq, Eq)]
pub struct Input {
    pub at: usize,
    pub end: usize,
}

// A record's body: where it stands in the buffer, with its head before it, and how much of it; and the input after it.
#[derive(Clone, Copy, Debug, PartialEq, Eq)]
pub struct Record {
    pub at: usize,
    pub len: usize,
    pub rest: Input,
}

// Why there is no record: the input ended, or it was cut inside one.
#[derive(Clone, Copy, Debug, PartialEq, Eq)]
pub enum Ending {
    End,
    Cut,
}

fn head_of(kind: Kind) -> usize
    ensures { result ≡ head_of kind }
{
    match kind {
        Kind::Bytes2 => 2,
        Kind::Bytes4 => 4,
        Kind::Numbers => 5,
        Kind::Entry => 18,
    }
}

// The number of at most 4 bytes at a place.
fn number_at(b: &[u8], at: usize, k: usize) -> usize
    requires { k ≤ 4 }
    ensures { (result ≡ be k (drop at b.now)) × (result < 4294967296) }
{
    wire::number(b, at, k) as usize
}

// How many bytes follow the head that stands at the front of b.
fn body_length(b: &[u8], kind: Kind) -> usize
    ensures { result ≡ body_length_lem kind b.now }
{
    match kind {
        Kind::Bytes2 => number_at(b, 0, 2),
        Kind::Bytes4 => number_at(b, 0, 4),
        Kind::Numbers => 8 * number_at(b, 1, 4),
        Kind::Entry => number_at(b, 16, 2),
    }
}

// Moves the unread bytes to the front.
fn to_front(buf: &mut [u8], at: usize, end: usize) -> usize
    requires { (0 < at) × (at ≤ end) × (end ≤ length buf.old) }
    ensures { Fronted buf.old at end buf.new result }
{
    buf.copy_within(at..end, 0);
    end - at
}

// One read into the buffer from a place on. Answers the place after what came: the place itself where the input has ended, or a read failed.
fn read_from(stdin: Stdin, buf: &mut [u8], at: usize) -> usize
    requires { at ≤ length buf.old }
    ensures { Grown buf.old at buf.new result }
{
    let mut reader = stdin;
    match reader.read(&mut buf[at..]) {
        Ok(got) => at + got,
        Err(_) => at,
    }
}

// Reads on until `want` bytes are unread, or the input ends. Answers their end.
fn fill(stdin: Stdin, buf: &mut [u8], at: usize, end: usize, want: usize) -> usize
    requires { (at ≤ end) × (end ≤ length buf.old) × (want ≤ length buf.old - at) }
    ensures { Grown buf.old end buf.new result }
{
    let mut e = end;
    while e - at < want {
        let more = read_from(stdin, buf, e);
        if more == e {
            return e;
        }
        e = more;
    }
    e
}

// Has `want` bytes unread in one piece, or as many as there are, moving them to the front where the buffer's end is too near.
fn ready(stdin: Stdin, buf: &mut [u8], input: Input, want: usize) -> Input
    requires { (input.at ≤ input.end) × (input.end ≤ length buf.old) × (want < length buf.old) }
    ensures { Ready buf.old input want buf.new result }
{
    let at = input.at;
    let end = input.end;
    if want < buf.len() - at {
        let e = fill(stdin, buf, at, end, want);
        return Input { at, end: e };
    }
    let n = to_front(buf, at, end);
    let e = fill(stdin, buf, 0, n, want);
    Input { at: 0, end: e }
}

// Drops `rest` bytes of the input after a place: those that are held, then as many as come. They pass through the buffer after the place.
// Answers the input after them, or nothing where it ended before.
fn drop_after(stdin: Stdin, buf: &mut [u8], place: usize, end: usize, rest: usize) -> Option<Input>
    requires { (place ≤ end) × (end ≤ length buf.old) }
    ensures { Dropped buf.old place end rest buf.new result }
{
    let held = end - place;
    if rest <= held {
        return Some(Input {
            at: place + rest,
            end,
        });
    }
    let mut left = rest - held;
    while 0 < left {
        let more = read_from(stdin, buf, place);
        if more == place {
            return None;
        }
        let got = more - place;
        if left <= got {
            return Some(Input {
                at: place + left,
                end: more,
            });
        }
        left -= got;
    }
    None
}

// The record whose head of `head` bytes is unread, with a body of `body` bytes.
fn take_body(
    stdin: Stdin,
    buf: &mut [u8],
    one: Input,
    kind: Kind,
    body: usize,
) -> Result<Record, Ending>
    requires { Headed kind buf.old one body }
    ensures { Gives kind buf.old one buf.new (told result) }
{
    let head = head_of(kind);
    let len = body.min(buf.len() - (head + 1));
    let two = ready(stdin, buf, one, head + len);
    let at = two.at;
    let end = two.end;
    if end - at < head + len {
        return Err(Ending::Cut);
    }
    let place = at + head;
    let Some(rest) = drop_after(stdin, buf, place + len, end, body - len) else {
        return Err(Ending::Cut);
    };
    Ok(Record {
        at: place,
        len,
        rest,
    })
}

// An input that lies within a buffer of n bytes.
fn within(input: Input, n: usize) -> Input
    ensures { Within input n result }
{
    let end = input.end.min(n);
    Input {
        at: input.at.min(end),
        end,
    }
}

// The next record of the input. A body longer than the buffer holds is given by its front; the rest of it is read and dropped. A buffer
// with no room for a head and one byte more is answered by Cut.
pub fn next_record(stdin: Stdin, buf: &mut [u8], input: Input, kind: Kind) -> Result<Record, Ending>
    ensures { Gives kind buf.old input buf.new (told result) }
{
    let head = head_of(kind);
    if buf.len() <= head + 1 {
        return Err(Ending::Cut);
    }
    let inside = within(input, buf.len());
    let one = ready(stdin, buf, inside, head);
    let at = one.at;
    let end = one.end;
    if at == end {
        return Err(Ending::End);
    }
    if end - at < head {
        return Err(Ending::Cut);
    }
    let body = body_length(&buf[at..end], kind);
    take_body(stdin, buf, one, kind, body)
}

// The head of a record whose body stands at a place.
pub fn head(buf: &[u8], at: usize, kind: Kind) -> &[u8]
    ensures { result.now ≡ slice (at - head_of kind) at buf.now }
{
    let n = head_of(kind);
    wire::part(buf, at.saturating_sub(n), n.min(at))
}

// The whole input, read to its end: how many bytes of the buffer it takes. Nothing where it is seen to be longer than the buffer.
#[tactic(auto, using(crate::proofs::Held::held_all_lem))]
pub fn read_all(stdin: Stdin, buf: &mut [u8]) -> Option<usize>
    ensures { HoldsAll (length buf.old) buf.new (told_all result) }
{
    let most = buf.len();
    let n = fill(stdin, buf, 0, 0, most);
    if n < most {
        return Some(n);
    }
    let mut over = [0u8; 1];
    let more = read_from(stdin, &mut over, 0);
    if more == 0 {
        return Some(n);
    }
    None
}
