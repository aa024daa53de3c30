// What the programs over a log share: their lines, and the way from a whole input to them.
//
// A program is a value with `impl Teller for` it: `lines` says what it puts out of a log, and `tell` puts it out. Its `run` is
// `log_lines::tell(stdin, buf, &mut Output::new(stdout, out), &mut program)`.
#![tactic(auto, using(output::proofs::Adding::adds_then))]

ghost use Rattle.std.specs.Prelude.{List, ℕ, length};
ghost use Rattle.flight_log.specs.Step.{step_told};
ghost use Rattle.output.specs.Output.{Adds, Ends};
ghost use Rattle.log_lines.specs.Lines.{entry_line, last_line, longer_line, TellsTo};

use flight_log::EntryAt;
use output::Output;
use refusals::Refusal;
use std::io::Stdin;

// The bytes of the longest log that a program holds.
pub const HOLDS: usize = 4194304;

// Line n: an entry.
pub fn pour_entry(out: &mut Output, n: u64, entry: EntryAt)
    ensures { Adds out.old (entry_line n entry.sender entry.tick entry.len) out.new }
{
    out.pour_decimal(n);
    out.pour_counted(b" sender ", entry.sender);
    out.pour_counted(b" tick ", entry.tick);
    out.pour_counted_line(b" length ", entry.len as u64);
}

// The last line, by the step that ended the reading after n entries. An entry ends nothing, and has none.
pub fn pour_last(out: &mut Output, n: u64, step: Result<Option<EntryAt>, Refusal>)
    ensures { Adds out.old (last_line (step_told step) n) out.new }
{
    match step {
        Ok(None) => out.pour_counted_line(b"end ", n),
        Ok(Some(_)) => {}
        Err(refusal) => {
            let number = refusal.number() as u64;
            out.pour_counted(b"refused ", number);
            out.pour_counted_line(b" after ", n);
        }
    }
}

// The last line, and all that is not written out yet. Answers whether the system took all that was written out.
pub fn finish(out: &mut Output, n: u64, step: Result<Option<EntryAt>, Refusal>) -> bool
    ensures { Ends out.old (last_line (step_told step) n) out.new result }
{
    pour_last(out, n, step);
    out.write_out()
}

// The one line for a log that is longer than a program holds.
pub fn pour_longer(out: &mut Output, most: u64)
    ensures { Adds out.old (longer_line most) out.new }
{
    out.pour_counted(b"longer than ", most);
    out.pour(b" bytes\n");
}

// The same, and it is written out: such a program says nothing else. Answers whether the system took it.
pub fn finish_longer(out: &mut Output, most: u64) -> bool
    ensures { Ends out.old (longer_line most) out.new result }
{
    pour_longer(out, most);
    out.write_out()
}

// What a program makes of a whole log.
pub trait Teller {
    ghost lines: { Self → List ℕ → List ℕ };

    // Its lines. Answers whether the system took all of them.
    fn tell(&mut self, out: &mut Output, log: &[u8]) -> bool
        ensures { Ends out.old (lines self.old log.now) out.new result };
}

// The lines of the whole input, or the one line that it is longer than the buffer. Answers whether the system took all that was written out.
pub fn tell<T: Teller>(stdin: Stdin, buf: &mut [u8], out: &mut Output, teller: &mut T) -> bool
    ensures { TellsTo (length buf.old) (T.lines teller.old) out.old out.new result }
{
    let Some(n) = stream::read_all(stdin, buf) else {
        return finish_longer(out, buf.len() as u64);
    };
    teller.tell(out, wire::part(buf, 0, n))
}
