// MossUDP packets from their parts. Standard input holds records, each after a 4-byte big-endian length: 10 session bytes, a 4-byte
// sequence, a type byte, and the message blocks as they will lie; a line gives the bytes of each packet, or its refusal.
#![tactic(auto, using(output::proofs::Adding::adds_then))]

ghost use Rattle.std.specs.Prelude.{◌≤◌, ◌≡◌, ◌++◌, refl, length, take, drop};
ghost use Rattle.wire.specs.Slices.{buffer};
ghost use Rattle.wire.specs.Text.{ascii};
ghost use Rattle.wire.specs.Bytes.{be};
ghost use Rattle.moss.specs.Limits.{max_packet};
ghost use Rattle.text.specs.Text.{decimal, hex};
ghost use Rattle.refusals.specs.Numbers.{number_of};
ghost use Rattle.stream.specs.declared.Kind.TheVariants.{Bytes4};
ghost use Rattle.output.specs.Output.{Adds, line_limit};
ghost use Rattle.record_lines.specs.Lines.{Tells, each};
ghost use Rattle.gauge_bytes.specs.Lines.{line, lines};

use output::Output;
use record_lines::{LastLine, Teller};
use refusals::Refusal;
use std::io::{Stdin, Stdout};
use stream::{Input, Kind};

// The bytes of a record before its blocks, and where its sequence and its type stand.
const RECORD_HEAD: usize = moss::SESSION + 4 + 1;

const SEQUENCE_AT: usize = moss::SESSION;

const KIND_AT: usize = moss::SESSION + 4;

// The number of four bytes at a place.
fn word_at(b: &[u8], at: usize) -> u32
    ensures { result ≡ be 4 (drop at b.now) }
{
    wire::number(b, at, 4) as u32
}

// The first n bytes of the packet, in hexadecimal.
fn pour_bytes(out: &mut Output, packet: &[u8], n: usize)
    ensures { Adds out.old (ascii " bytes " ++ hex (take n packet.now) ++ ascii "\n") out.new }
{
    out.pour(b" bytes ");
    out.pour_hex(wire::part(packet, 0, n));
    out.pour(b"\n");
}

fn pour_refused(out: &mut Output, refusal: Refusal)
    ensures { Adds out.old (ascii " refused " ++ decimal (number_of refusal) ++ ascii "\n") out.new }
{
    out.pour_counted_line(b" refused ", u64::from(refusal.number()));
}

// The packet of a record is written, and its line goes out.
fn one_more(out: &mut Output, n: u64, packet: &mut [u8], b: &[u8])
    requires { length packet.old ≡ max_packet }
    ensures { Adds out.old (line n b.now) out.new }
{
    out.pour_decimal(n);
    if b.len() < RECORD_HEAD {
        pour_refused(out, Refusal::PacketTooShort);
        return;
    }
    let session = moss::session_at(b, 0);
    let sequence = word_at(b, SEQUENCE_AT);
    let kind = b[KIND_AT];
    match moss_writer::write_packet(session, sequence, kind, &b[RECORD_HEAD..], packet) {
        Ok(len) => pour_bytes(out, packet, len),
        Err(refusal) => pour_refused(out, refusal),
    }
}

// The memory of a packet, as long as the longest.
#[derive(Drop)]
struct Writes<'a> {
    packet: &'a mut [u8],
    ghost sized: { length packet.now ≡ max_packet },
}

impl<'a> Teller for Writes<'a> {
    ghost Known = { Unit {0} };

    ghost says = { each (λ n x. line n x.body) };

    ghost known = { λ _. tt };

    fn line(&mut self, out: &mut Output, n: u64, _head: &[u8], body: &[u8]) {
        one_more(out, n, self.packet, body);
    }
}

impl<'a> LastLine for Writes<'a> {
    ghost ends = { refl };
}

// One line a record of the input, and the last line. Answers whether the system took all of them; it stops where it did not. The buffer holds
// more than the longest record, so that a longer one is refused by its front.
fn run(
    stdin: Stdin,
    stdout: Stdout,
    buf: &mut [u8],
    input: Input,
    packet: &mut [u8],
    out: &mut [u8],
) -> bool
    requires { (length packet.old ≡ max_packet) × (line_limit ≤ length out.old) }
    ensures { Tells Bytes4 lines buf.old input (buffer out) 0 result }
{
    let mut out = Output::new(stdout, out);
    let mut writes = Writes { packet };
    record_lines::tell(stdin, buf, input, Kind::Bytes4, &mut out, &mut writes)
}

fn main(rt: HostRuntime) {
    let mut buf = [0u8; stream::HOLDS];
    let mut packet = [0u8; moss::MAX_PACKET];
    let mut out = [0u8; output::HOLDS];
    run(
        rt.stdin(),
        rt.stdout(),
        &mut buf,
        Input { at: 0, end: 0 },
        &mut packet,
        &mut out,
    );
}
