// Where a message begins in a log. The arguments are its sender and its sequence in decimal, and standard input is the log; the one line says the
// place of its first entry, that there is none, or the refusal.
#![tactic(auto)]

ghost use Rattle.std.specs.Prelude.{◌≡◌, ◌≤◌, length};
ghost use Rattle.output.specs.Output.{Adds, line_limit};
ghost use Rattle.log_lines.specs.Lines.{Tells};
ghost use Rattle.find.specs.Numbers.{with_digit_lem, number_in, says};
ghost use Rattle.find.specs.Said.{key_line};

use log_lines::Teller;
use output::Output;
use std::env::{Env, FillError};
use std::io::{Stderr, Stdin, Stdout, Write};

// The largest sender and the largest sequence.
const MAX_SENDER: u64 = 18446744073709551615;

const MAX_SEQUENCE: u64 = 4294967295;

// One digit more behind v.
fn with_digit(most: u64, v: u64, x: u8) -> Option<u64>
    ensures { says result ≡ with_digit_lem most v x }
{
    if x < b'0' {
        return None;
    }
    if b'9' < x {
        return None;
    }
    let d = (x - b'0') as u64;
    if most < d {
        return None;
    }
    if (most - d) / 10 < v {
        return None;
    }
    Some(10 * v + d)
}

// The number that a text is, in decimal, where it is not above the most.
fn number_in(text: &[u8], most: u64) -> Option<u64>
    ensures { says result ≡ number_in most text.now }
{
    if text.len() == 0 {
        return None;
    }
    let mut v: u64 = 0;
    for x in text {
        let Some(n) = with_digit(most, v, *x) else {
            return None;
        };
        v = n;
    }
    Some(v)
}

// The key that is looked for, with the memory of an index.
#[derive(Drop)]
struct Finder<'a> {
    index: &'a mut [u64],
    sender: u64,
    sequence: u64,
}

// What is said of a key.
fn answer(out: &mut Output, log: &[u8], index: &mut [u64], sender: u64, sequence: u64)
    ensures { Adds out.old (key_line (length index.old) sender sequence log.now) out.new }
{
    match index_builder::index_log(log, &mut *index) {
        Ok(n) => index_lines::pour_found(out, log_index::find(index, n, sender, sequence)),
        Err(refusal) => index_lines::pour_refused(out, refusal.number()),
    }
}

impl<'a> Teller for Finder<'a> {
    ghost lines = { λ p. key_line (length p.index.now) p.sender p.sequence };

    fn tell(&mut self, out: &mut Output, log: &[u8]) -> bool {
        answer(out, log, self.index, self.sender, self.sequence);
        out.write_out()
    }
}

// Looks the key up in the whole input, or says that it is longer than the buffer.
fn run(
    stdin: Stdin,
    stdout: Stdout,
    buf: &mut [u8],
    index: &mut [u64],
    out: &mut [u8],
    sender: u64,
    sequence: u64,
) -> bool
    requires { line_limit ≤ length out.old }
    ensures { Tells (length buf.old) (key_line (length index.entry.now) sender sequence) out.entry.now out.exit.now result }
{
    let mut finder = Finder {
        index,
        sender,
        sequence,
    };
    let mut out = Output::new(stdout, out);
    log_lines::tell(stdin, buf, &mut out, &mut finder)
}

// The same over an index and an output of its own.
fn run_over(stdin: Stdin, stdout: Stdout, buf: &mut [u8], sender: u64, sequence: u64) {
    let mut index = [0u64; index_lines::WORDS];
    let mut out = [0u8; 4096];
    run(stdin, stdout, buf, &mut index, &mut out, sender, sequence);
}

fn looked_up(stdin: Stdin, stdout: Stdout, sender: u64, sequence: u64) {
    let mut buf = [0u8; log_lines::HOLDS];
    run_over(stdin, stdout, &mut buf, sender, sequence);
}

fn usage(stderr: Stderr) {
    let mut writer = stderr;
    let _ = writer.write_all(b"usage: find SENDER SEQUENCE < LOG\n");
}

// Whether there is an argument i.
fn given(rt: &HostRuntime, i: usize) -> bool {
    let mut text = [0u8; 64];
    match rt.arg(i, &mut text) {
        Err(FillError::NotPresent) => false,
        _ => true,
    }
}

// Argument i as a number.
fn argument(rt: &HostRuntime, i: usize, most: u64) -> Option<u64> {
    let mut text = [0u8; 64];
    let n = match rt.arg(i, &mut text) {
        Ok(n) => n,
        Err(_) => 0,
    };
    number_in(wire::part(&text, 0, n), most)
}

fn main(rt: HostRuntime) {
    if !given(&rt, 2) {
        usage(rt.stderr());
        return;
    }
    if given(&rt, 3) {
        usage(rt.stderr());
        return;
    }
    let Some(sender) = argument(&rt, 1, MAX_SENDER) else {
        usage(rt.stderr());
        return;
    };
    let Some(sequence) = argument(&rt, 2, MAX_SEQUENCE) else {
        usage(rt.stderr());
        return;
    };
    looked_up(rt.stdin(), rt.stdout(), sender, sequence);
}
