// Cases of the writers over little room, and of messages that a packet does not have, which no other program reaches. Standard input holds
// cases, each as one byte that names the call, a 4-byte big-endian count and that many 8-byte numbers; a line says what the call answers.
// `tests/vectors` makes the cases, and what must be said of them, from the papers.
#![tactic(auto)]

ghost use Rattle.std.specs.Prelude.{◌≤◌, length};
ghost use Rattle.output.specs.Output.{line_limit};

mod acknowledged;
mod packets;
mod surveyed;

use output::Output;
use refusals::Refusal;
use std::io::Stdin;
use stream::{Ending, Input, Kind};

// The bytes that the writers' output has at most: more than the longest block of a message takes.
const ROOM: usize = 65600;

// The bytes of what was written that a line shows.
const SHOWN: usize = 64;

// What the writers read and write: letters A, message blocks of them, and the room that a case gives them.
#[derive(Drop)]
struct Writing {
    letters: [u8; ROOM],
    blocks: [u8; ROOM],
    room: [u8; ROOM],
}

// The number at a place of a case.
fn number(case: &[u8], place: usize) -> usize {
    wire::number(case, place, 8) as usize
}

// How many bytes were written, and the first of them; or the refusal. They stand at a place of the room.
fn pour_written(out: &mut Output, room: &[u8], at: usize, written: Result<usize, Refusal>) {
    match written {
        Ok(n) => {
            let bytes = wire::part(room, at, n);
            out.pour_counted(b"bytes ", bytes.len() as u64);
            out.pour(b":");
            out.pour_hex(wire::part(bytes, 0, SHOWN));
        }
        Err(refusal) => pour_refused(out, refusal),
    }
}

fn pour_refused(out: &mut Output, refusal: Refusal) {
    out.pour_counted(b"refused ", u64::from(refusal.number()));
}

// The rest of a line, by the byte that names the call.
fn answer(out: &mut Output, call: u64, case: &[u8], writing: &mut Writing) {
    match call {
        1 => packets::laid(out, case, writing),
        2 => packets::written(out, case, writing),
        3 => acknowledged::written(out, case, &mut writing.room),
        4 => surveyed::written(out, case, &mut writing.room),
        _ => out.pour(b"no such call"),
    }
}

// Line n.
fn one_more(out: &mut Output, n: u64, call: u64, case: &[u8], writing: &mut Writing) {
    out.pour_decimal(n);
    out.pour(b" ");
    answer(out, call, case, writing);
    out.pour(b"\n");
}

// One line a case, and the last line. It stops where the output is closed.
// Kept: this loop is not record_lines' `tell`, since what a line says of a case has no definition in specs/; the vectors hold it.
fn run(stdin: Stdin, buf: &mut [u8], out: &mut Output, writing: &mut Writing)
    requires { line_limit ≤ length out.old.buf.now }
{
    let mut input = Input { at: 0, end: 0 };
    for n in 0..stream::MANY {
        let record = match stream::next_record(stdin, buf, input, Kind::Numbers) {
            Ok(record) => record,
            Err(ending) => {
                out.finish(n, ending);
                return;
            }
        };
        input = record.rest;
        let call = wire::number(stream::head(buf, record.at, Kind::Numbers), 0, 1);
        one_more(
            out,
            n + 1,
            call,
            wire::part(buf, record.at, record.len),
            writing,
        );
        if out.is_closed() {
            return;
        }
    }
    out.finish(stream::MANY, Ending::Cut);
}

fn main(rt: HostRuntime) {
    let mut buf = [0u8; 4096];
    let mut space = [0u8; 4096];
    let mut writing = Writing {
        letters: [65u8; ROOM],
        blocks: [0u8; ROOM],
        room: [0u8; ROOM],
    };
    run(
        rt.stdin(),
        &mut buf,
        &mut Output::new(rt.stdout(), &mut space),
        &mut writing,
    );
}
