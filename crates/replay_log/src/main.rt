// Replays a flight that was kept. Standard input is a log; each datagram is given, from its entry's sender, to a fresh receiver, and a line
// says what it answers, as in `replay`; the last line says how many entries there are, or the refusal that ended them. The log's limits bind
// beside the slot size.
#![tactic(auto)]

ghost use Rattle.std.specs.Prelude.{◌≡◌, true, ◌≤◌, length};
ghost use Rattle.output.specs.Output.{line_limit, Ends};
ghost use Rattle.receiver_state.specs.View.{shaped};
ghost use Rattle.flight_log.specs.Editions.{limits_in_lem};
ghost use Rattle.flight_log.specs.Said.{entry_said};
ghost use Rattle.receiver.specs.Lent.{world_in};
ghost use Rattle.log_lines.specs.Lines.{Tells};
ghost use Rattle.replay_log.specs.Lines.{Replayed, replay_lines_lem, lines_from};
ghost use Rattle.replay_log.specs.Inside.{lent_in, Stays};

use flight_log::{EntryAt, Limits};
use log_lines::Teller;
use output::Output;
use std::io::{Stdin, Stdout};

// The bytes of the store: each of the eight slots takes a payload of 262,144, in every edition.
const STORE: usize = 2097152;

// A receiver's memory, as it is lent, and the log's limits. The arrays are not its own, since a store of that length is too long to move.
#[derive(Drop)]
struct Replay<'a> {
    limits: Limits,
    state: &'a mut [u64],
    names: &'a mut [u8],
    store: &'a mut [u8],
    ledger: &'a mut [u32],
}

impl<'a> Replay<'a> {
    // Entry n: its datagram is received from its sender, within the log's limits, and its line goes out.
    fn hear(&mut self, out: &mut Output, n: u64, log: &[u8], entry: EntryAt)
        ensures heard { Replayed self.old.limits (lent_in self.old) (entry_said log.now entry) n out.old (lent_in self.new) out.new }
        ensures stays { Stays self.old self.new }
    {
        let limits = self.limits;
        let d = wire::part(log, entry.at, entry.len);
        let outcome = within_limits::receive_within(
            self.state,
            self.names,
            self.store,
            self.ledger,
            limits,
            entry.sender,
            d,
        );
        replay_lines::pour_line(out, n, outcome.answer, outcome.emptied);
    }

    // One line an entry, and the last line. Answers whether the system took all of them; it stops where it did not.
    fn replay(&mut self, out: &mut Output, log: &[u8]) -> bool
        requires shaped { shaped self.old.state.now self.old.names.now ≡ true }
        requires limits { self.old.limits ≡ limits_in_lem log.now }
        ensures { Ends out.old (lines_from (world_in (lent_in self.old)) log.now) out.new result }
    {
        let mut place: usize = 0;
        let mut n: u64 = 0;
        while !out.is_closed() {
            let step = flight_log::read_on(log, place);
            let entry = match step {
                Ok(Some(entry)) => entry,
                Ok(None) => return log_lines::finish(out, n, step),
                Err(_) => return log_lines::finish(out, n, step),
            };
            n += 1;
            place = entry.next;
            self.hear(out, n, log, entry);
        }
        false
    }
}

// The program over a whole log.
#[derive(Drop)]
struct Replayer;

impl Teller for Replayer {
    ghost lines = { λ _. replay_lines_lem };

    // Over a fresh receiver. A state of the receiver's own lengths is opened, so the refusal, after which nothing would be replayed, does not
    // come.
    fn tell(&mut self, out: &mut Output, log: &[u8]) -> bool {
        let mut state = [0u64; receiver::STATE_WORDS];
        let mut names = [0u8; receiver::NAME_BYTES];
        let mut store = [0u8; STORE];
        let mut ledger = [0u32; receiver::LEDGER];
        let Ok(()) = open_and_payload::open(&mut state, &mut names, STORE) else {
            return false;
        };
        let mut replay = Replay {
            limits: flight_log::limits_in(log),
            state: &mut state,
            names: &mut names,
            store: &mut store,
            ledger: &mut ledger,
        };
        replay.replay(out, log)
    }
}

// Replays the whole input, or says that it is longer than the buffer.
fn run(stdin: Stdin, stdout: Stdout, buf: &mut [u8], out: &mut [u8]) -> bool
    requires { line_limit ≤ length out.old }
    ensures { Tells (length buf.old) replay_lines_lem out.entry.now out.exit.now result }
{
    let mut out = Output::new(stdout, out);
    log_lines::tell(stdin, buf, &mut out, &mut Replayer)
}

fn main(rt: HostRuntime) {
    let mut buf = [0u8; log_lines::HOLDS];
    let mut out = [0u8; output::HOLDS];
    run(rt.stdin(), rt.stdout(), &mut buf, &mut out);
}
