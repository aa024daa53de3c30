// What is in a log. Standard input is a log; a line tells each entry, and the last line how many there are, or the refusal that ended them.
#![tactic(auto)]

ghost use Rattle.std.specs.Prelude.{◌≤◌, length};
ghost use Rattle.output.specs.Output.{Ends, line_limit};
ghost use Rattle.log_lines.specs.Lines.{Tells};
ghost use Rattle.log_list.specs.Lines.{list_lines};

use log_lines::Teller;
use output::Output;
use std::io::{Stdin, Stdout};

// One line an entry, and the last line. Answers whether the system took all of them; it stops where it did not.
fn listed(out: &mut Output, log: &[u8]) -> bool
    ensures { Ends out.old (list_lines log.now) out.new result }
{
    let mut place: usize = 0;
    let mut n: u64 = 0;
    while !out.is_closed() {
        let step = flight_log::read_on(log, place);
        match step {
            Ok(Some(entry)) => {
                n += 1;
                place = entry.next;
                log_lines::pour_entry(out, n, entry);
            }
            Ok(None) => return log_lines::finish(out, n, step),
            Err(_) => return log_lines::finish(out, n, step),
        }
    }
    false
}

// The program over a whole log.
#[derive(Drop)]
struct Lister;

impl Teller for Lister {
    ghost lines = { λ _. list_lines };

    fn tell(&mut self, out: &mut Output, log: &[u8]) -> bool {
        listed(out, log)
    }
}

// Lists the whole input, or says that it is longer than the buffer.
fn run(stdin: Stdin, stdout: Stdout, buf: &mut [u8], out: &mut [u8]) -> bool
    requires { line_limit ≤ length out.old }
    ensures { Tells (length buf.old) list_lines out.entry.now out.exit.now result }
{
    let mut out = Output::new(stdout, out);
    log_lines::tell(stdin, buf, &mut out, &mut Lister)
}

fn main(rt: HostRuntime) {
    let mut buf = [0u8; log_lines::HOLDS];
    let mut out = [0u8; output::HOLDS];
    run(rt.stdin(), rt.stdout(), &mut buf, &mut out);
}
