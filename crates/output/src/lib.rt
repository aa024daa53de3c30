// An output buffer that is written out whenever it is full. What stands before a place is not written out yet. No contract can say what the
// system took: they say that every byte of a text goes out once and in order, in whole buffers, if all that is written out arrives. Once the
// system does not take what is written out, the output is closed: its place is past every buffer, and nothing more goes out.
#![tactic(auto)]

ghost use Rattle.std.specs.Prelude.{[], ◌++◌, ◌≡◌, ◌≤◌, ◌↔◌, IsTrue, length};
ghost use Rattle.wire.specs.Text.{ascii};
ghost use Rattle.text.specs.Text.{decimal, signed_decimal, hex};
ghost use Rattle.stream.specs.Records.{ended_as, told};
ghost use Rattle.output.specs.Output.{Pours, WrittenOut, Finishes, last_line, Adds, IsClosed, Ends};
ghost use Rattle.output.specs.InsideRoom.{Clears};

use std::io::{Stdout, Write};
use stream::{Ending, Record};

// Room that any number needs, and the last line. A program's buffer has as much or more.
pub const LINE: usize = 128;

// The bytes of a program's output buffer, but where one line is all.
pub const HOLDS: usize = 65536;

// The place of an output that is closed. A program stops there.
pub const CLOSED: usize = 18446744073709551615;

// So many bytes fill a line in hexadecimal.
const PIECE: usize = LINE / 2;

// Writes the bytes before a place to standard output. Answers whether the system took them all.
pub fn write_out(stdout: Stdout, out: &[u8], at: usize) -> bool
    ensures { WrittenOut at result }
{
    if at == CLOSED {
        return false;
    }
    if at == 0 {
        return true;
    }
    let mut writer = stdout;
    writer.write_all(wire::part(out, 0, at)).is_ok()
}

// Makes room: a buffer that is full up to the place is written out. Answers the place to go on from.
fn clear(stdout: Stdout, out: &[u8], at: usize) -> usize
    ensures { Clears (length out.now) at result }
{
    if at != out.len() {
        return at;
    }
    if write_out(stdout, out, at) {
        return 0;
    }
    CLOSED
}

// Bytes of any number, as they are. Answers the place after them.
pub fn pour(stdout: Stdout, out: &mut [u8], at: usize, bytes: &[u8]) -> usize
    ensures { Pours out.old at bytes.now out.new result }
{
    let mut next = at;
    let mut i: usize = 0;
    while i < bytes.len() {
        let from = clear(stdout, out, next);
        let k = wire::least(bytes.len() - i, wire::room(out.len(), from));
        if k == 0 {
            return from;
        }
        wire::put_bytes(out, from, wire::part(bytes, i, k));
        next = from + k;
        i += k;
    }
    next
}

// A number in decimal, by way of a line of its own: where the buffer's end is near.
fn decimal_apart(stdout: Stdout, out: &mut [u8], at: usize, n: u64) -> usize
    ensures { Pours out.old at (decimal n) out.new result }
{
    let mut line = [0u8; LINE];
    let k = text::put_decimal(&mut line, 0, n);
    pour(stdout, out, at, wire::part(&line, 0, k))
}

// A number in decimal.
pub fn pour_decimal(stdout: Stdout, out: &mut [u8], at: usize, n: u64) -> usize
    ensures { Pours out.old at (decimal n) out.new result }
{
    if LINE <= wire::room(out.len(), at) {
        return text::put_decimal(out, at, n);
    }
    decimal_apart(stdout, out, at, n)
}

// A signed number in decimal, by way of a line of its own.
fn signed_apart(stdout: Stdout, out: &mut [u8], at: usize, z: i64) -> usize
    ensures { Pours out.old at (signed_decimal z) out.new result }
{
    let mut line = [0u8; LINE];
    let k = text::put_signed(&mut line, 0, z);
    pour(stdout, out, at, wire::part(&line, 0, k))
}

// A signed number in decimal.
pub fn pour_signed(stdout: Stdout, out: &mut [u8], at: usize, z: i64) -> usize
    ensures { Pours out.old at (signed_decimal z) out.new result }
{
    if LINE <= wire::room(out.len(), at) {
        return text::put_signed(out, at, z);
    }
    signed_apart(stdout, out, at, z)
}

// A word and a number.
pub fn pour_counted(stdout: Stdout, out: &mut [u8], at: usize, word: &[u8], n: u64) -> usize
    ensures { Pours out.old at (word.now ++ decimal n) out.new result }
{
    let next = pour(stdout, out, at, word);
    pour_decimal(stdout, out, next, n)
}

// A word, a number and the end of the line.
pub fn pour_counted_line(stdout: Stdout, out: &mut [u8], at: usize, word: &[u8], n: u64) -> usize
    ensures { Pours out.old at (word.now ++ decimal n ++ ascii "\n") out.new result }
{
    let next = pour_counted(stdout, out, at, word, n);
    pour(stdout, out, next, b"\n")
}

// At most a piece of bytes in hexadecimal, by way of a line of its own.
fn piece_apart(stdout: Stdout, out: &mut [u8], at: usize, bytes: &[u8]) -> usize
    requires { length bytes.now ≤ 64 }
    ensures { Pours out.old at (hex bytes.now) out.new result }
{
    let mut line = [0u8; LINE];
    let k = text::put_hex(&mut line, 0, bytes);
    pour(stdout, out, at, wire::part(&line, 0, k))
}

// At most a piece of bytes, in hexadecimal.
fn pour_piece(stdout: Stdout, out: &mut [u8], at: usize, bytes: &[u8]) -> usize
    requires { length bytes.now ≤ 64 }
    ensures { Pours out.old at (hex bytes.now) out.new result }
{
    if LINE <= wire::room(out.len(), at) {
        return text::put_hex(out, at, bytes);
    }
    piece_apart(stdout, out, at, bytes)
}

// Bytes of any number, in hexadecimal.
pub fn pour_hex(stdout: Stdout, out: &mut [u8], at: usize, bytes: &[u8]) -> usize
    ensures { Pours out.old at (hex bytes.now) out.new result }
{
    let mut next = at;
    let mut i: usize = 0;
    while i < bytes.len() {
        let k = wire::least(PIECE, bytes.len() - i);
        next = pour_piece(stdout, out, next, wire::part(bytes, i, k));
        i += k;
    }
    next
}

// The last line, by how the input ended. A record ends nothing: with one left, the input counts as cut.
fn pour_last(
    stdout: Stdout,
    out: &mut [u8],
    at: usize,
    n: u64,
    next: Result<Record, Ending>,
) -> usize
    ensures { Pours out.old at (last_line (told next) n) out.new result }
{
    match next {
        Err(Ending::End) => pour_counted_line(stdout, out, at, b"end ", n),
        Err(Ending::Cut) => pour_counted_line(stdout, out, at, b"cut ", n),
        Ok(_) => pour_counted_line(stdout, out, at, b"cut ", n),
    }
}

// The last line, and all that is not written out yet. Answers whether the system took all that was written out.
pub fn finish(
    stdout: Stdout,
    out: &mut [u8],
    at: usize,
    n: u64,
    next: Result<Record, Ending>,
) -> bool
    ensures { Finishes out.old at (last_line (told next) n) out.new result }
{
    let end = pour_last(stdout, out, at, n, next);
    write_out(stdout, out, end)
}

// The output of a program, which its functions take as `out: &mut Output`, with `Adds out.old TEXT out.new` for what they write (laws in
// proofs/Adding: `adds_then`, `adds_is`, `adds_shut`). What it writes goes behind what the lent buffer holds and is not written out yet. Once the system does not take
// what is written out, the output is closed: a text more does nothing, so that a line of many texts needs no test after each.
#[derive(Drop)]
pub struct Output<'a> {
    stdout: Stdout,
    buf: &'a mut [u8],
    at: usize,
}

impl<'a> Output<'a> {
    // Nothing stands in the buffer yet.
    pub fn new(stdout: Stdout, buf: &'a mut [u8]) -> Output<'a>
        ensures same { result.buf.ghost_name ≡ buf.entry.ghost_name }
        ensures empty { (result.buf.now ≡ buf.old) × (result.at ≡ 0) }
    {
        Output { stdout, buf, at: 0 }
    }

    // What is poured next goes behind another place of the buffer: what stands before it counts as not written out yet.
    pub fn go_on(&mut self, at: usize)
        ensures { self.new ≡ record self.old { at = at } }
    {
        self.at = at;
    }

    // The place in the buffer behind all that is not written out yet.
    pub fn place(&self) -> usize
        ensures { result ≡ self.now.at }
    {
        let place = self.at;
        place
    }

    // Whether the system did not take what was written out.
    pub fn is_closed(&self) -> bool
        ensures { IsTrue result ↔ IsClosed self.now }
    {
        self.at == CLOSED
    }

    // Bytes of any number, as they are.
    pub fn pour(&mut self, bytes: &[u8])
        ensures { Adds self.old bytes.now self.new }
    {
        self.at = pour(self.stdout, self.buf, self.at, bytes);
    }

    // A number in decimal.
    pub fn pour_decimal(&mut self, n: u64)
        ensures { Adds self.old (decimal n) self.new }
    {
        self.at = pour_decimal(self.stdout, self.buf, self.at, n);
    }

    // A signed number in decimal.
    pub fn pour_signed(&mut self, z: i64)
        ensures { Adds self.old (signed_decimal z) self.new }
    {
        self.at = pour_signed(self.stdout, self.buf, self.at, z);
    }

    // A word and a number.
    pub fn pour_counted(&mut self, word: &[u8], n: u64)
        ensures { Adds self.old (word.now ++ decimal n) self.new }
    {
        self.pour(word);
        self.pour_decimal(n);
    }

    // A word, a number and the end of the line.
    pub fn pour_counted_line(&mut self, word: &[u8], n: u64)
        ensures { Adds self.old (word.now ++ decimal n ++ ascii "\n") self.new }
    {
        self.pour_counted(word, n);
        self.pour(b"\n");
    }

    // Bytes of any number, in hexadecimal.
    pub fn pour_hex(&mut self, bytes: &[u8])
        ensures { Adds self.old (hex bytes.now) self.new }
    {
        self.at = pour_hex(self.stdout, self.buf, self.at, bytes);
    }

    // All that is not written out yet. Answers whether the system took all that was written out.
    pub fn write_out(&mut self) -> bool
        ensures { Ends self.old [] self.new result }
    {
        let at = self.at;
        let held = &mut *self.buf;
        write_out(self.stdout, held, at)
    }

    // The last line, and all that is not written out yet. Answers whether the system took all that was written out.
    pub fn finish(&mut self, n: u64, ending: Ending) -> bool
        ensures { Ends self.old (last_line (ended_as ending) n) self.new result }
    {
        finish(self.stdout, self.buf, self.at, n, Err(ending))
    }
}
