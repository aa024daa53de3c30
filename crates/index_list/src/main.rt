// The index of a log. Standard input is a log; a line tells each row in order, and the last line how many there are, or the refusal alone.
#![tactic(auto)]

ghost use Rattle.std.specs.Prelude.{◌≡◌, ◌+◌, ◌*◌, ◌≤◌, ◌++◌, length};
ghost use Rattle.output.specs.Output.{Ends, line_limit};
ghost use Rattle.log_index.specs.Words.{row_said, row_at};
ghost use Rattle.log_lines.specs.Lines.{end_line, Tells};
ghost use Rattle.index_lines.specs.Lines.{refused_line};
ghost use Rattle.index_list.specs.Lines.{log_lines_lem};
ghost use Rattle.index_list.specs.InsideLines.{lines_below};

use log_index::Row;
use log_lines::Teller;
use output::Output;
use std::io::{Stdin, Stdout};

// Row i of some words.
fn row_at(index: &[u64], i: usize) -> Row
    requires { 3 * i + 3 ≤ length index.now }
    ensures { row_said result ≡ row_at index.now i }
{
    let at = 3 * i;
    Row {
        sender: index[at],
        sequence: index[at + 1],
        place: index[at + 2],
    }
}

// The last line, and all that is not written out yet.
fn finish(out: &mut Output, n: u64) -> bool
    ensures { Ends out.old (end_line n) out.new result }
{
    out.pour_counted_line(b"end ", n);
    out.write_out()
}

// One line a row, and the last line. Answers whether the system took all of them; it stops where it did not.
fn listed(out: &mut Output, index: &[u64], n: usize) -> bool
    requires { 3 * n ≤ length index.now }
    ensures { Ends out.old (lines_below n index.now ++ end_line n) out.new result }
{
    for i in 0..n {
        index_lines::pour_row(out, row_at(index, i));
        if out.is_closed() {
            return false;
        }
    }
    finish(out, n as u64)
}

// The one line of a refusal.
fn refused(out: &mut Output, number: u32) -> bool
    ensures { Ends out.old (refused_line number) out.new result }
{
    index_lines::pour_refused(out, number);
    out.write_out()
}

// Indexes a log, or says why not. Answers whether the system took all that was written out.
fn indexed(out: &mut Output, log: &[u8], index: &mut [u64]) -> bool
    ensures { Ends out.old (log_lines_lem (length index.old) log.now) out.new result }
{
    match index_builder::index_log(log, &mut *index) {
        Ok(n) => listed(out, index, n),
        Err(refusal) => refused(out, refusal.number()),
    }
}

// The program over a whole log, with the memory of an index.
#[derive(Drop)]
struct Indexer<'a> {
    index: &'a mut [u64],
}

impl<'a> Teller for Indexer<'a> {
    ghost lines = { λ p. log_lines_lem (length p.index.now) };

    fn tell(&mut self, out: &mut Output, log: &[u8]) -> bool {
        indexed(out, log, self.index)
    }
}

// Indexes the whole input, or says that it is longer than the buffer.
fn run(stdin: Stdin, stdout: Stdout, buf: &mut [u8], index: &mut [u64], out: &mut [u8]) -> bool
    requires { line_limit ≤ length out.old }
    ensures { Tells (length buf.old) (log_lines_lem (length index.entry.now)) out.entry.now out.exit.now result }
{
    let mut out = Output::new(stdout, out);
    log_lines::tell(stdin, buf, &mut out, &mut Indexer { index })
}

// The same over an index and an output of its own.
fn run_over(stdin: Stdin, stdout: Stdout, buf: &mut [u8]) {
    let mut index = [0u64; index_lines::WORDS];
    let mut out = [0u8; output::HOLDS];
    run(stdin, stdout, buf, &mut index, &mut out);
}

fn main(rt: HostRuntime) {
    let mut buf = [0u8; log_lines::HOLDS];
    run_over(rt.stdin(), rt.stdout(), &mut buf);
}
