// Is a packet acknowledged? Standard input holds records, each after a 4-byte big-endian length: an 8-byte number and then acknowledge blocks;
// a line says whether the blocks acknowledge the number, or why they are refused.
#![tactic(auto, using(output::proofs::Adding::adds_then))]

ghost use Rattle.std.specs.Prelude.{◌≡◌, ◌≤◌, refl, length};
ghost use Rattle.wire.specs.Slices.{buffer};
ghost use Rattle.ack_blocks.specs.Read.{answers};
ghost use Rattle.stream.specs.declared.Kind.TheVariants.{Bytes4};
ghost use Rattle.output.specs.Output.{Adds, line_limit};
ghost use Rattle.record_lines.specs.Lines.{Tells, each};
ghost use Rattle.acks.specs.Lines.{record_answer, answer_text, line, lines};

use output::Output;
use record_lines::{LastLine, Teller};
use refusals::Refusal;
use std::io::{Stdin, Stdout};
use stream::{Input, Kind};

// The bytes of a record before its blocks.
const NUMBER: usize = 8;

// What a record is answered.
fn answer(b: &[u8]) -> Result<bool, Refusal>
    ensures { answers result ≡ record_answer b.now }
{
    if b.len() < NUMBER {
        return Err(Refusal::BlockCut);
    }
    let number = wire::number(b, 0, NUMBER);
    ack_blocks::ask(&b[NUMBER..], number)
}

fn pour_answer(out: &mut Output, answer: Result<bool, Refusal>)
    ensures { Adds out.old (answer_text (answers answer)) out.new }
{
    match answer {
        Ok(true) => out.pour(b" yes\n"),
        Ok(false) => out.pour(b" no\n"),
        Err(refusal) => out.pour_counted_line(b" refused ", u64::from(refusal.number())),
    }
}

// Nothing is known from record to record.
#[derive(Drop)]
struct Acks;

impl Teller for Acks {
    ghost Known = { Unit {0} };

    ghost says = { each (λ n x. line n x.body) };

    ghost known = { λ _. tt };

    fn line(&mut self, out: &mut Output, n: u64, _head: &[u8], body: &[u8]) {
        out.pour_decimal(n);
        pour_answer(out, answer(body));
    }
}

impl LastLine for Acks {
    ghost ends = { refl };
}

// One line a record of the input, and the last line. Answers whether the system took all of them; it stops where it did not. The buffer holds
// more than the longest record, so that a longer one is refused by its front.
fn run(stdin: Stdin, stdout: Stdout, buf: &mut [u8], input: Input, out: &mut [u8]) -> bool
    requires { line_limit ≤ length out.old }
    ensures { Tells Bytes4 lines buf.old input (buffer out) 0 result }
{
    let mut out = Output::new(stdout, out);
    record_lines::tell(stdin, buf, input, Kind::Bytes4, &mut out, &mut Acks)
}

fn main(rt: HostRuntime) {
    let mut buf = [0u8; stream::HOLDS];
    let mut out = [0u8; output::HOLDS];
    run(
        rt.stdin(),
        rt.stdout(),
        &mut buf,
        Input { at: 0, end: 0 },
        &mut out,
    );
}
