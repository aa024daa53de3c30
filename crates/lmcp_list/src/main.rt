// What is in survey messages. Standard input holds messages, each after a 4-byte big-endian length; a line gives the numbers of each,
// or its refusal.
#![tactic(auto, using(output::proofs::Adding::adds_then))]

ghost use Rattle.std.specs.Prelude.{◌≡◌, ◌≤◌, refl, length};
ghost use Rattle.wire.specs.Slices.{buffer};
ghost use Rattle.stream.specs.declared.Kind.TheVariants.{Bytes4};
ghost use Rattle.output.specs.Output.{Adds, line_limit};
ghost use Rattle.record_lines.specs.Lines.{Tells, each};
ghost use Rattle.lmcp.specs.Found.{found_told};
ghost use Rattle.lmcp_list.specs.Lines.{spaced, list_limit, line, lines, Listed};
ghost use Rattle.lmcp_list.specs.Inside.{found_text, found_line};

use output::Output;
use record_lines::{LastLine, Teller};
use refusals::Refusal;
use std::io::{Stdin, Stdout};
use stream::{Input, Kind};

// The numbers that the program holds.
const NUMBERS: usize = 262144;

// Numbers, each after a space.
fn pour_numbers(out: &mut Output, list: &[i64])
    ensures { Adds out.old (spaced list.now) out.new }
{
    for z in list {
        out.pour(b" ");
        out.pour_signed(*z);
    }
}

fn pour_found(out: &mut Output, list: &[i64], found: Result<usize, Refusal>)
    ensures { Adds out.old (found_text list.now (found_told found)) out.new }
{
    match found {
        Ok(n) => {
            out.pour(b" list");
            pour_numbers(out, &list[..n.min(list.len())]);
        }
        Err(refusal) => out.pour_counted(b" refused ", u64::from(refusal.number())),
    }
}

// Line n.
fn pour_line(out: &mut Output, n: u64, list: &[i64], found: Result<usize, Refusal>)
    ensures { Adds out.old (found_line n list.now (found_told found)) out.new }
{
    out.pour_decimal(n);
    pour_found(out, list, found);
    out.pour(b"\n");
}

// Message n is read into the list, and its line goes out.
fn one_more(out: &mut Output, n: u64, list: &mut [i64], message: &[u8])
    requires { length list.old ≡ list_limit }
    ensures listed { Listed message.now n list.old out.old list.new out.new }
    ensures line { Adds out.old (line list_limit n message.now) out.new }
{
    let found = lmcp_reader::read_message(message, list);
    pour_line(out, n, list, found);
}

// The memory of a message's numbers.
#[derive(Drop)]
struct Reads<'a> {
    list: &'a mut [i64],
    ghost sized: { length list.now ≡ list_limit },
}

impl<'a> Teller for Reads<'a> {
    ghost Known = { Unit {0} };

    ghost says = { each (λ n x. line list_limit n x.body) };

    ghost known = { λ _. tt };

    fn line(&mut self, out: &mut Output, n: u64, _head: &[u8], body: &[u8]) {
        one_more(out, n, self.list, body);
    }
}

impl<'a> LastLine for Reads<'a> {
    ghost ends = { refl };
}

// One line a message of the input, and the last line. Answers whether the system took all of them; it stops where it did not.
fn run(
    stdin: Stdin,
    stdout: Stdout,
    buf: &mut [u8],
    input: Input,
    list: &mut [i64],
    out: &mut [u8],
) -> bool
    requires { (length list.old ≡ list_limit) × (line_limit ≤ length out.old) }
    ensures { Tells Bytes4 (lines list_limit) buf.old input (buffer out) 0 result }
{
    let mut out = Output::new(stdout, out);
    let mut reads = Reads { list };
    record_lines::tell(stdin, buf, input, Kind::Bytes4, &mut out, &mut reads)
}

// The buffer holds more than the longest message, so that a longer one is refused by its front.
const BUFFER: usize = lmcp::MAX_MESSAGE + 8192;

fn main(rt: HostRuntime) {
    let mut buf = [0u8; BUFFER];
    let mut list = [0i64; NUMBERS];
    let mut out = [0u8; output::HOLDS];
    run(
        rt.stdin(),
        rt.stdout(),
        &mut buf,
        Input { at: 0, end: 0 },
        &mut list,
        &mut out,
    );
}
