// Which numbers of a flight were missed. Standard input holds datagrams, each after a 2-byte big-endian length, from one sender; of each that
// has good form the sequence watch is asked, and a line says what it notes.
#![tactic(auto, using(output::proofs::Adding::adds_then))]

ghost use Rattle.std.specs.Prelude.{◌≤◌, refl, length};
ghost use Rattle.wire.specs.Slices.{buffer};
ghost use Rattle.stream.specs.declared.Kind.TheVariants.{Bytes2};
ghost use Rattle.output.specs.Output.{Adds, line_limit};
ghost use Rattle.record_lines.specs.Lines.{Tells};
ghost use Rattle.differences.specs.Noted.{notes};
ghost use Rattle.watch.specs.declared.Watch.{Watch};
ghost use Rattle.gaps.specs.Lines.{answer_text, line, lines, says, Judged};

use differences::Answer;
use output::Output;
use record_lines::{LastLine, Teller};
use std::io::{Stdin, Stdout};
use stream::{Input, Kind};
use watch::{Seen, Watch};

// What the watch notes of a datagram of sender 0, or the reader's refusal, which leaves the watch as it is.
fn judge(w: Watch, d: &[u8]) -> Seen
    ensures { Judged w d.now result }
{
    let read = datagram::read_datagram(d, datagram::MAX_PAYLOAD, datagram::MAX_FRAGMENTS);
    match read {
        Ok(header) => watch::see(w, 0, header.sequence),
        Err(refusal) => Seen {
            answer: Answer::Refused(refusal),
            watch: w,
        },
    }
}

fn pour_answer(out: &mut Output, answer: Answer)
    ensures { Adds out.old (answer_text (notes answer)) out.new }
{
    match answer {
        Answer::First => out.pour(b" first\n"),
        Answer::Forward(missing) => out.pour_counted_line(b" forward ", u64::from(missing)),
        Answer::Same => out.pour(b" same\n"),
        Answer::Late(by) => out.pour_counted_line(b" late ", u64::from(by)),
        Answer::Restarted(number) => out.pour_counted_line(b" restarted ", u64::from(number)),
        Answer::Refused(refusal) => out.pour_counted_line(
            b" refused ",
            u64::from(refusal.number()),
        ),
    }
}

// Line n.
fn pour_line(out: &mut Output, n: u64, answer: Answer)
    ensures { Adds out.old (line n (notes answer)) out.new }
{
    out.pour_decimal(n);
    pour_answer(out, answer);
}

// The watch that goes through all datagrams.
#[derive(Drop)]
struct Gaps {
    watch: Watch,
}

impl Teller for Gaps {
    ghost Known = { Watch };

    ghost says = { says };

    ghost known = { λ g. g.watch };

    fn line(&mut self, out: &mut Output, n: u64, _head: &[u8], body: &[u8]) {
        let seen = judge(self.watch, body);
        self.watch = seen.watch;
        pour_line(out, n, seen.answer);
    }
}

impl LastLine for Gaps {
    ghost ends = { refl };
}

// One line a datagram of the input, and the last line. Answers whether the system took all of them; it stops where it did not.
fn run(stdin: Stdin, stdout: Stdout, buf: &mut [u8], input: Input, out: &mut [u8]) -> bool
    requires { line_limit ≤ length out.old }
    ensures { Tells Bytes2 lines buf.old input (buffer out) 0 result }
{
    let mut gaps = Gaps {
        watch: watch::new(),
    };
    let mut out = Output::new(stdout, out);
    record_lines::tell(stdin, buf, input, Kind::Bytes2, &mut out, &mut gaps)
}

fn main(rt: HostRuntime) {
    let mut buf = [0u8; stream::HOLDS];
    let mut out = [0u8; output::HOLDS];
    run(
        rt.stdin(),
        rt.stdout(),
        &mut buf,
        Input { at: 0, end: 0 },
        &mut out,
    );
}
