// Cases of the limits that no other program reaches, over the proved crates. Standard input holds cases, each as one byte that names the call,
// a 4-byte big-endian count and that many 8-byte numbers; a line says what the call answers. `tests/vectors` makes the cases, and what must be
// said of them, from the paper.
#![tactic(auto)]

ghost use Rattle.std.specs.Prelude.{◌≤◌, length};
ghost use Rattle.output.specs.Output.{line_limit};

mod cuts;
mod lent;
mod tied;
mod watching;

use cuts::Cutting;
use output::Output;
use refusals::Refusal;
use std::io::Stdin;
use stream::{Ending, Input, Kind};

// The number at a place of a case.
fn number(case: &[u8], place: usize) -> usize {
    wire::number(case, place, 8) as usize
}

fn pour_refused(out: &mut Output, refusal: Refusal) {
    out.pour_counted(b"refused ", u64::from(refusal.number()));
}

// The rest of a line, by the byte that names the call.
fn answer(out: &mut Output, call: u64, case: &[u8], cutting: &mut Cutting) {
    match call {
        1 => cutting.cut(out, case),
        2 => cutting.parts(out, case),
        3 => watching::seen(out, case),
        4 => lent::opened(out, case),
        5 => lent::received(out, case),
        6 => lent::forgotten(out, case),
        7 => tied::answered(out, case),
        _ => out.pour(b"no such call"),
    }
}

// Line n.
fn one_more(out: &mut Output, n: u64, call: u64, case: &[u8], cutting: &mut Cutting) {
    out.pour_decimal(n);
    out.pour(b" ");
    answer(out, call, case, cutting);
    out.pour(b"\n");
}

// One line a case, and the last line. It stops where the output is closed.
// Kept: this loop is not record_lines' `tell`, since what a line says of a case has no definition in specs/; the vectors hold it.
fn run(stdin: Stdin, buf: &mut [u8], out: &mut Output, cutting: &mut Cutting)
    requires { line_limit ≤ length out.old.buf.now }
{
    let mut input = Input { at: 0, end: 0 };
    for n in 0..stream::MANY {
        let record = match stream::next_record(stdin, buf, input, Kind::Numbers) {
            Ok(record) => record,
            Err(ending) => {
                out.finish(n, ending);
                return;
            }
        };
        input = record.rest;
        let call = wire::number(stream::head(buf, record.at, Kind::Numbers), 0, 1);
        one_more(
            out,
            n + 1,
            call,
            wire::part(buf, record.at, record.len),
            cutting,
        );
        if out.is_closed() {
            return;
        }
    }
    out.finish(stream::MANY, Ending::Cut);
}

fn main(rt: HostRuntime) {
    let mut buf = [0u8; 4096];
    let mut space = [0u8; 4096];
    // Made here: what a `new` gives back is moved, a mebibyte a run.
    let mut cutting = Cutting {
        payload: [65u8; cuts::PAYLOAD],
        d: [0u8; cutter::MOST_SIZE],
    };
    run(
        rt.stdin(),
        &mut buf,
        &mut Output::new(rt.stdout(), &mut space),
        &mut cutting,
    );
}
