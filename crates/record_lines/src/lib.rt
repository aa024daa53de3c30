// The records of an input and a program's lines over them: definitions in specs/, the law of the loop in proofs/, and the loop itself, once for
// all programs.
//
// A program is a struct of what it knows and of the memory that it works in, with `impl Teller for` it: `Known` is the type of what is known
// (`Unit` where nothing is), `says` its `Says` of specs/, `known` what the value knows, and the method `line` puts line n of a record out. Its
// `run` is `record_lines::tell(stdin, buf, input, Kind::Bytes2, &mut Output::new(stdout, out), &mut gaps)`, as in crate gaps, which needs no
// proof file but for `judge`: with `#![tactic(auto, using(output::proofs::Adding::adds_then))]` the lines of texts one after another are found.
// What must stay true of the value from line to line, as a buffer's length, is a ghost field of its struct. `tell` takes a program with the last
// line of all of them (`impl LastLine for`); one with no last line takes `records`.
#![tactic(auto)]

ghost use Rattle.std.specs.Prelude.{◌≡◌};
ghost use Rattle.output.specs.Output.{Adds, last_line};
ghost use Rattle.record_lines.specs.Lines.{Says, lines_after, TellsTo, Reaches, rec_of};

use output::Output;
use std::io::Stdin;
use stream::{Ending, Input, Kind};

// What a program makes of the records of its input.
pub trait Teller {
    ghost Known: { Type 0 };

    ghost says: { Says Known };

    ghost known: { Self → Known };

    // Line n, of one record, by what is known before it.
    fn line(&mut self, out: &mut Output, n: u64, head: &[u8], body: &[u8])
        ensures text { Adds out.old (says.line n (known self.old) (rec_of head.now body.now)) out.new }
        ensures next { known self.new ≡ says.after (known self.old) (rec_of head.now body.now) };
}

// A program whose last line says how the input ended and how many records there were.
pub trait LastLine: Teller {
    ghost ends: { Self.says.last ≡ last_line };
}

// How far a program came: how many records there were, and how the input ended.
#[derive(Clone, Copy, Debug, PartialEq, Eq)]
pub struct Told {
    pub n: u64,
    pub ending: Ending,
}

// One line a record of the input. Nothing where the output closed, and then no more goes out.
pub fn records<T: Teller>(
    stdin: Stdin,
    buf: &mut [u8],
    input: Input,
    kind: Kind,
    out: &mut Output,
    teller: &mut T,
) -> Option<Told>
    ensures { Reaches T.says (T.known teller.old) kind buf.old input out.old result out.new }
{
    let mut rest = input;
    for n in 0..stream::MANY {
        let record = match stream::next_record(stdin, buf, rest, kind) {
            Ok(record) => record,
            Err(ending) => return Some(Told { n, ending }),
        };
        rest = record.rest;
        let head = stream::head(buf, record.at, kind);
        teller.line(out, n + 1, head, wire::part(buf, record.at, record.len));
        if out.is_closed() {
            return None;
        }
    }
    Some(Told {
        n: stream::MANY,
        ending: Ending::Cut,
    })
}

// One line a record of the input, and the last line. Answers whether the system took all of them; it stops where it did not.
pub fn tell<T: LastLine>(
    stdin: Stdin,
    buf: &mut [u8],
    input: Input,
    kind: Kind,
    out: &mut Output,
    teller: &mut T,
) -> bool
    ensures { TellsTo kind (lines_after T.says 0 (T.known teller.old)) buf.old input out.old out.new result }
{
    let Some(told) = records(stdin, buf, input, kind, out, teller) else {
        return false;
    };
    out.finish(told.n, told.ending)
}
