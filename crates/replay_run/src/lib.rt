// What the program `replay` does. Standard input holds datagrams, each after a 2-byte big-endian length, from one sender; each is given
// to a fresh receiver, and a line says what it answers.
#![tactic(auto)]

ghost use Rattle.std.specs.Prelude.{◌≤◌, ◌≡◌, refl, length};
ghost use Rattle.wire.specs.Slices.{buffer};
ghost use Rattle.steps.specs.Runs.{World};
ghost use Rattle.receiver.specs.Lent.{world_in};
ghost use Rattle.stream.specs.declared.Kind.TheVariants.{Bytes2};
ghost use Rattle.output.specs.Output.{line_limit};
ghost use Rattle.record_lines.specs.Lines.{Tells};
ghost use Rattle.replay_run.specs.Lines.{lines, says, Replayed};
ghost use Rattle.replay_run.specs.Inside.{lent_in};

use output::Output;
use record_lines::{LastLine, Teller};
use std::io::{Stdin, Stdout};
use stream::{Input, Kind};

// The bytes of the store, by the paper.
const STORE: usize = 65536;

// The bytes of the input buffer of a program that replays.
pub const HOLDS: usize = 262144;

// A receiver, and the memory that it works in.
#[derive(Drop)]
struct Replay {
    state: [u64; receiver::STATE_WORDS],
    names: [u8; receiver::NAME_BYTES],
    store: [u8; STORE],
    ledger: [u32; receiver::LEDGER],
}

impl Replay {
    // Datagram n is received, and its line goes out. All are of one sender, 0.
    fn hear(&mut self, out: &mut Output, n: u64, d: &[u8])
        ensures { Replayed (lent_in self.old) d.now n out.old (lent_in self.new) out.new }
    {
        let outcome = receiver::receive(
            &mut self.state,
            &mut self.names,
            &mut self.store,
            &mut self.ledger,
            0,
            d,
        );
        replay_lines::pour_line(out, n, outcome.answer, outcome.emptied);
    }
}

impl Teller for Replay {
    ghost Known = { World };

    ghost says = { says };

    ghost known = { λ r. world_in (lent_in r) };

    fn line(&mut self, out: &mut Output, n: u64, _head: &[u8], body: &[u8]) {
        self.hear(out, n, body);
    }
}

impl LastLine for Replay {
    ghost ends = { refl };
}

// One line a datagram of the input, and the last line, over a fresh receiver. Answers whether the system took all of them; it stops where it
// did not. A state of the receiver's own lengths is opened, so the refusal, after which nothing would be replayed, does not come.
fn afresh(stdin: Stdin, stdout: Stdout, buf: &mut [u8], input: Input, out: &mut [u8]) -> bool
    requires { line_limit ≤ length out.old }
    ensures { Tells Bytes2 lines buf.old input (buffer out) 0 result }
{
    let mut replay = Replay {
        state: [0u64; receiver::STATE_WORDS],
        names: [0u8; receiver::NAME_BYTES],
        store: [0u8; STORE],
        ledger: [0u32; receiver::LEDGER],
    };
    let Ok(()) = open_and_payload::open(&mut replay.state, &mut replay.names, STORE) else {
        return false;
    };
    let mut out = Output::new(stdout, out);
    record_lines::tell(stdin, buf, input, Kind::Bytes2, &mut out, &mut replay)
}

// Replays standard input over a lent buffer. What is read and written no contract can say; the buffer keeps its length.
pub fn run(stdin: Stdin, stdout: Stdout, buf: &mut [u8])
    ensures { length buf.new ≡ length buf.old }
{
    let mut out = [0u8; output::HOLDS];
    afresh(stdin, stdout, buf, Input { at: 0, end: 0 }, &mut out);
}
