// Makes a log. Standard input holds records: an 8-byte sender, an 8-byte tick, a 2-byte length and so many bytes, all big-endian; standard
// output is their log. Of an input that is cut the whole records are kept.
#![tactic(auto)]

ghost use Rattle.std.specs.Prelude.{◌≤◌, length, drop};
ghost use Rattle.wire.specs.Bytes.{be};
ghost use Rattle.wire.specs.Slices.{buffer};
ghost use Rattle.stream.specs.declared.Kind.TheVariants.{Entry};
ghost use Rattle.output.specs.Output.{line_limit};
ghost use Rattle.record_lines.specs.Lines.{Tells};
ghost use Rattle.flight_log.specs.Entries.{entry_of};
ghost use Rattle.log_write.specs.Kept.{Keeps, log_text};
ghost use Rattle.log_write.specs.Inside.{entry_limit, entries_text};

use std::io::{Stdin, Stdout};
use stream::{Input, Kind};

// No entry is longer: three numbers of at most ten bytes, and a datagram.
const ENTRY: usize = 30 + datagram::MAX_DATAGRAM;

// One entry goes out, by way of a space of its own. Answers the place after it. There is room for it, so no refusal comes.
fn keep(stdout: Stdout, out: &mut [u8], at: usize, space: &mut [u8], head: &[u8], d: &[u8]) -> usize
    requires { entry_limit ≤ length space.old }
    ensures { Keeps out.old at (entry_of (be 8 head.now) (be 8 (drop 8 head.now)) d.now) out.new result }
{
    let sender = wire::number(head, 0, 8);
    let tick = wire::number(head, 8, 8);
    let Ok(n) = log_append::append(&mut *space, 0, sender, tick, d) else {
        return at;
    };
    output::pour(stdout, out, at, wire::part(space, 0, n))
}

// The entries of the input, one after another, behind the head of the log. Answers whether the system took all of them; it stops where it did not.
fn kept(
    stdin: Stdin,
    stdout: Stdout,
    buf: &mut [u8],
    input: Input,
    out: &mut [u8],
    space: &mut [u8],
    first: usize,
) -> bool
    requires { entry_limit ≤ length space.old }
    ensures { Tells Entry entries_text buf.old input (buffer out) first result }
{
    let mut rest = input;
    let mut at = first;
    // Kept: no `record_lines::Teller`, whose line has to put any body out, and no entry is longer than a log takes.
    for n in 0..stream::MANY {
        let Ok(record) = stream::next_record(stdin, buf, rest, Kind::Entry) else {
            return output::write_out(stdout, out, at);
        };
        rest = record.rest;
        at = keep(
            stdout,
            out,
            at,
            space,
            stream::head(buf, record.at, Kind::Entry),
            wire::part(buf, record.at, record.len),
        );
        if at == output::CLOSED {
            return false;
        }
    }
    output::write_out(stdout, out, at)
}

// The log of the input. Its payload limit is the largest that a log may have, and its head has room, so no refusal comes.
fn made(
    stdin: Stdin,
    stdout: Stdout,
    buf: &mut [u8],
    input: Input,
    out: &mut [u8],
    space: &mut [u8],
) -> bool
    requires { (entry_limit ≤ length space.old) × (line_limit ≤ length out.old) }
    ensures { Tells Entry log_text buf.old input (buffer out) 0 result }
{
    let Ok(first) = log_append::begin(out, datagram::MAX_PAYLOAD as u64) else {
        return false;
    };
    kept(stdin, stdout, buf, input, out, space, first)
}

fn main(rt: HostRuntime) {
    let mut buf = [0u8; 262144];
    let mut out = [0u8; 262144];
    let mut space = [0u8; ENTRY];
    made(
        rt.stdin(),
        rt.stdout(),
        &mut buf,
        Input { at: 0, end: 0 },
        &mut out,
        &mut space,
    );
}
