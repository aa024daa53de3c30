// Acknowledge blocks of lists of numbers. Standard input holds records, each after a 4-byte big-endian length: 8-byte big-endian numbers; a line
// gives the bytes of the blocks of each list, or its refusal, or says that the list is longer than the program holds.
#![tactic(auto, using(output::proofs::Adding::adds_then))]

ghost use Rattle.std.specs.Prelude.{◌≡◌, ◌/◌, ◌≤◌, ◌++◌, refl, length};
ghost use Rattle.std.proofs.lemmas.List.Edits.{sets};
ghost use Rattle.wire.specs.Slices.{buffer};
ghost use Rattle.wire.specs.Text.{ascii};
ghost use Rattle.text.specs.Text.{decimal};
ghost use Rattle.refusals.specs.Numbers.{number_of};
ghost use Rattle.ack_blocks.specs.Limits.{max_blocks};
ghost use Rattle.stream.specs.declared.Kind.TheVariants.{Bytes4};
ghost use Rattle.output.specs.Output.{Adds, line_limit};
ghost use Rattle.record_lines.specs.Lines.{Tells, each};
ghost use Rattle.ack_bytes.specs.Lines.{numbers_of, list_limit, bytes_text, longer_text, line, lines};

use output::Output;
use record_lines::{LastLine, Teller};
use refusals::Refusal;
use std::io::{Stdin, Stdout};
use stream::{Input, Kind};

// The numbers that the program holds.
const NUMBERS: usize = 65536;

// The bytes of a number.
const WIDTH: usize = 8;

// A record's head, and more than the numbers that the program holds.
const BUFFER: usize = WIDTH * NUMBERS + 256;

// The numbers of a record, which the list holds.
fn take_list(body: &[u8], list: &mut [u64]) -> usize
    requires { length body.now / 8 ≤ length list.old }
    ensures { (result ≡ length body.now / 8) × (list.new ≡ sets list.old 0 (numbers_of (length body.now / 8) body.now)) }
{
    let n = body.len() / WIDTH;
    for i in 0..n {
        list[i] = wire::number(body, WIDTH * i, WIDTH);
    }
    n
}

fn pour_longer(out: &mut Output)
    ensures { Adds out.old longer_text out.new }
{
    out.pour_counted(b" longer than ", NUMBERS as u64);
    out.pour(b" numbers\n");
}

// The blocks in hexadecimal; nothing after the word where there are none.
fn pour_bytes(out: &mut Output, blocks: &[u8])
    ensures { Adds out.old (bytes_text blocks.now) out.new }
{
    if blocks.len() == 0 {
        out.pour(b" bytes\n");
        return;
    }
    out.pour(b" bytes ");
    out.pour_hex(blocks);
    out.pour(b"\n");
}

fn pour_refused(out: &mut Output, refusal: Refusal)
    ensures { Adds out.old (ascii " refused " ++ decimal (number_of refusal) ++ ascii "\n") out.new }
{
    out.pour_counted_line(b" refused ", u64::from(refusal.number()));
}

// The blocks of a record's numbers are written, and its line goes out.
fn one_more(out: &mut Output, n: u64, list: &mut [u64], blocks: &mut [u8], body: &[u8])
    requires { (length list.old ≡ list_limit) × (length blocks.old ≡ max_blocks) }
    ensures { Adds out.old (line n body.now) out.new }
{
    out.pour_decimal(n);
    if NUMBERS < body.len() / WIDTH {
        pour_longer(out);
        return;
    }
    if body.len() % WIDTH != 0 {
        pour_refused(out, Refusal::BlockCut);
        return;
    }
    let count = take_list(body, list);
    match ack_writer::write_blocks(&list[..count], blocks) {
        Ok(len) => pour_bytes(out, wire::part(blocks, 0, len)),
        Err(refusal) => pour_refused(out, refusal),
    }
}

// The memory of a list of numbers and of its blocks.
#[derive(Drop)]
struct Writes<'a> {
    list: &'a mut [u64],
    blocks: &'a mut [u8],
    ghost sized: { (length list.now ≡ list_limit) × (length blocks.now ≡ max_blocks) },
}

impl<'a> Teller for Writes<'a> {
    ghost Known = { Unit {0} };

    ghost says = { each (λ n x. line n x.body) };

    ghost known = { λ _. tt };

    fn line(&mut self, out: &mut Output, n: u64, _head: &[u8], body: &[u8]) {
        one_more(out, n, self.list, self.blocks, body);
    }
}

impl<'a> LastLine for Writes<'a> {
    ghost ends = { refl };
}

// One line a record of the input, and the last line. Answers whether the system took all of them; it stops where it did not.
fn run(
    stdin: Stdin,
    stdout: Stdout,
    buf: &mut [u8],
    input: Input,
    list: &mut [u64],
    blocks: &mut [u8],
    out: &mut [u8],
) -> bool
    requires { ((length list.old ≡ list_limit) × (length blocks.old ≡ max_blocks)) × (line_limit ≤ length out.old) }
    ensures { Tells Bytes4 lines buf.old input (buffer out) 0 result }
{
    let mut out = Output::new(stdout, out);
    let mut writes = Writes { list, blocks };
    record_lines::tell(stdin, buf, input, Kind::Bytes4, &mut out, &mut writes)
}

fn main(rt: HostRuntime) {
    let mut buf = [0u8; BUFFER];
    let mut list = [0u64; NUMBERS];
    let mut blocks = [0u8; ack_blocks::MAX_BLOCKS];
    let mut out = [0u8; output::HOLDS];
    run(
        rt.stdin(),
        rt.stdout(),
        &mut buf,
        Input { at: 0, end: 0 },
        &mut list,
        &mut blocks,
        &mut out,
    );
}
