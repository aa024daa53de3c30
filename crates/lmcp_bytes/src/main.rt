// Survey messages from lists of numbers. Standard input holds lists, each as one byte (0: leave the checksum zero, else calculate it), a
// 4-byte big-endian count and that many 8-byte big-endian two's-complement numbers; a line gives the bytes of each, or its refusal, or says
// that the list is longer than the program holds.
#![tactic(auto, using(output::proofs::Adding::adds_then))]

ghost use Rattle.std.specs.Prelude.{◌≡◌, ◌/◌, ◌≤◌, refl, length};
ghost use Rattle.std.proofs.lemmas.List.Edits.{sets};
ghost use Rattle.wire.specs.Slices.{buffer};
ghost use Rattle.wire.specs.Signed.{signed};
ghost use Rattle.stream.specs.declared.Kind.TheVariants.{Numbers};
ghost use Rattle.output.specs.Output.{Adds, line_limit};
ghost use Rattle.record_lines.specs.Lines.{Tells, each};
ghost use Rattle.lmcp.specs.Limits.{max_message};
ghost use Rattle.lmcp.specs.Made.{made_told};
ghost use Rattle.lmcp_bytes.specs.Lines.{numbers_of, calculated, list_limit, list_line, longer_text, Written, line, lines};
ghost use Rattle.lmcp_bytes.specs.Inside.{holds, made_text};

use output::Output;
use record_lines::{LastLine, Teller};
use refusals::Refusal;
use std::io::{Stdin, Stdout};
use stream::{Input, Kind};

// The numbers that the program holds.
const NUMBERS: usize = 262144;

// A record's head, and one number more than the program holds.
const BUFFER: usize = 8 * NUMBERS + 256;

// The signed number with these 64 bits.
fn signed_of(u: u64) -> i64
    ensures { result ≡ signed 64 u }
{
    u.cast_signed()
}

// The numbers of a record's body, which the list holds.
fn take_list(body: &[u8], list: &mut [i64]) -> usize
    requires { length body.now / 8 ≤ length list.old }
    ensures { (result ≡ length body.now / 8) × (list.new ≡ sets list.old 0 (numbers_of (length body.now / 8) body.now)) }
{
    let n = body.len() / 8;
    for i in 0..n {
        let z = signed_of(wire::number(body, 8 * i, 8));
        list[i] = z;
    }
    n
}

// The byte before the count says whether to calculate.
fn calculates(head: &[u8]) -> bool
    ensures { result ≡ calculated head.now }
{
    wire::number(head, 0, 1) != 0
}

fn pour_longer(out: &mut Output, n: usize)
    ensures { Adds out.old (longer_text n) out.new }
{
    out.pour_counted(b" longer than ", n as u64);
    out.pour(b" numbers\n");
}

fn pour_made(out: &mut Output, bytes: &[u8], made: Result<usize, Refusal>)
    ensures { Adds out.old (made_text bytes.now (made_told made)) out.new }
{
    match made {
        Ok(n) => {
            out.pour(b" bytes ");
            out.pour_hex(wire::part(bytes, 0, n));
            out.pour(b"\n");
        }
        Err(refusal) => out.pour_counted_line(b" refused ", u64::from(refusal.number())),
    }
}

// List n is written, and its line goes out.
fn one_more(
    out: &mut Output,
    n: u64,
    calculate: bool,
    list: &mut [i64],
    bytes: &mut [u8],
    body: &[u8],
)
    requires { (length list.old ≡ list_limit) × (length bytes.old ≡ max_message) }
    ensures written { Written calculate body.now n (holds list.old bytes.old) out.old (holds list.new bytes.new) out.new }
    ensures line { Adds out.old (list_line list_limit max_message n calculate body.now) out.new }
{
    out.pour_decimal(n);
    if list.len() < body.len() / 8 {
        pour_longer(out, list.len());
        return;
    }
    let count = take_list(body, list);
    let made = lmcp_writer::write_message(&list[..count], calculate, bytes);
    pour_made(out, bytes, made);
}

// The memory of a list of numbers and of its message.
#[derive(Drop)]
struct Writes<'a> {
    list: &'a mut [i64],
    bytes: &'a mut [u8],
    ghost sized: { (length list.now ≡ list_limit) × (length bytes.now ≡ max_message) },
}

impl<'a> Teller for Writes<'a> {
    ghost Known = { Unit {0} };

    ghost says = { each (line list_limit max_message) };

    ghost known = { λ _. tt };

    fn line(&mut self, out: &mut Output, n: u64, head: &[u8], body: &[u8]) {
        let calculate = calculates(head);
        one_more(out, n, calculate, self.list, self.bytes, body);
    }
}

impl<'a> LastLine for Writes<'a> {
    ghost ends = { refl };
}

// One line a list of the input, and the last line. Answers whether the system took all of them; it stops where it did not.
fn run(
    stdin: Stdin,
    stdout: Stdout,
    buf: &mut [u8],
    input: Input,
    list: &mut [i64],
    bytes: &mut [u8],
    out: &mut [u8],
) -> bool
    requires { ((length list.old ≡ list_limit) × (length bytes.old ≡ max_message)) × (line_limit ≤ length out.old) }
    ensures { Tells Numbers (lines list_limit max_message) buf.old input (buffer out) 0 result }
{
    let mut out = Output::new(stdout, out);
    let mut writes = Writes { list, bytes };
    record_lines::tell(stdin, buf, input, Kind::Numbers, &mut out, &mut writes)
}

fn main(rt: HostRuntime) {
    let mut buf = [0u8; BUFFER];
    let mut list = [0i64; NUMBERS];
    let mut bytes = [0u8; lmcp::MAX_MESSAGE];
    let mut out = [0u8; output::HOLDS];
    run(
        rt.stdin(),
        rt.stdout(),
        &mut buf,
        Input { at: 0, end: 0 },
        &mut list,
        &mut bytes,
        &mut out,
    );
}
