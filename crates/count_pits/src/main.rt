// What the map gets. Standard input is a log; it is counted over a fresh receiver, and the lines tell its entries by their answers, and of each
// tile its pits and how many of them are sure.
#![tactic(auto)]

ghost use Rattle.std.specs.Prelude.{◌≤◌, length};
ghost use Rattle.output.specs.Output.{Adds, line_limit};
ghost use Rattle.log_lines.specs.Lines.{Tells};
ghost use Rattle.count.specs.Counts.{told};
ghost use Rattle.count_pits.specs.Lines.{report_lines, count_lines_lem, log_lines_lem};

use count::Report;
use log_lines::Teller;
use output::Output;
use refusals::Refusal;
use std::io::{Stdin, Stdout};

// The bytes of the longest log that it holds.
const HOLDS: usize = 2097152;

// The bytes of the store: each of the eight slots takes a payload of 262,144.
const STORE: usize = 2097152;

// The numbers of the list: as many as a message can have.
const NUMBERS: usize = 262144;

fn pour_report(out: &mut Output, report: Report)
    ensures { Adds out.old (report_lines report) out.new }
{
    let refused = report.refused;
    let tile = report.tile;
    let pits = report.pits;
    let sure = report.sure;
    count_lines::pour_totals(
        &mut *out,
        report.entries,
        report.kept,
        report.repeated,
        report.delivered,
    );
    count_lines::pour_refusals(&mut *out, &refused);
    count_lines::pour_lists(&mut *out, report.lists);
    count_lines::pour_tiles(out, report.tiles as usize, &tile, &pits, &sure);
}

fn pour_count(out: &mut Output, counted: Result<Report, Refusal>)
    ensures { Adds out.old (count_lines_lem (told counted)) out.new }
{
    match counted {
        Ok(report) => pour_report(out, report),
        Err(e) => count_lines::pour_refusal(out, e.number()),
    }
}

// The program over a whole log, with the memory that a count is lent.
#[derive(Drop)]
struct Counter<'a> {
    store: &'a mut [u8],
    ledger: &'a mut [u32],
    numbers: &'a mut [i64],
}

impl Teller for Counter<'_> {
    ghost lines = { λ s. log_lines_lem (length s.numbers.now) s.store.now s.ledger.now };

    fn tell(&mut self, out: &mut Output, log: &[u8]) -> bool {
        let counted = count::count_log(
            log,
            &mut *self.store,
            &mut *self.ledger,
            &mut *self.numbers,
        );
        pour_count(&mut *out, counted);
        out.write_out()
    }
}

// Counts the whole input, or says that it is longer than the buffer.
fn run(
    stdin: Stdin,
    stdout: Stdout,
    buf: &mut [u8],
    out: &mut [u8],
    store: &mut [u8],
    ledger: &mut [u32],
    numbers: &mut [i64],
) -> bool
    requires { line_limit ≤ length out.old }
    ensures { Tells (length buf.old) (log_lines_lem (length numbers.old) store.old ledger.old) out.entry.now out.exit.now result }
{
    let mut out = Output::new(stdout, out);
    let mut counter = Counter {
        store,
        ledger,
        numbers,
    };
    log_lines::tell(stdin, buf, &mut out, &mut counter)
}

fn main(rt: HostRuntime) {
    let mut buf = [0u8; HOLDS];
    let mut out = [0u8; output::HOLDS];
    let mut store = [0u8; STORE];
    let mut ledger = [0u32; receiver::LEDGER];
    let mut numbers = [0i64; NUMBERS];
    run(
        rt.stdin(),
        rt.stdout(),
        &mut buf,
        &mut out,
        &mut store,
        &mut ledger,
        &mut numbers,
    );
}
