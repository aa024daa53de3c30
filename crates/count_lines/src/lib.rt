// The lines of a count.
#![tactic(auto)]

ghost use Rattle.std.specs.Prelude.{length};
ghost use Rattle.output.specs.Output.{Adds};
ghost use Rattle.count_lines.specs.Lines.{total_lines, refused_line, refused_lines, lists_line, tile_line, tile_lines, refusal_line};

use output::Output;

// How many entries, and how many of them got each answer that is no refusal.
pub fn pour_totals(out: &mut Output, entries: u64, kept: u64, repeated: u64, delivered: u64)
    ensures { Adds out.old (total_lines entries kept repeated delivered) out.new }
{
    out.pour_counted_line(b"entries ", entries);
    out.pour_counted_line(b"kept ", kept);
    out.pour_counted_line(b"repeated ", repeated);
    out.pour_counted_line(b"delivered ", delivered);
}

// How many were refused by a number; no line where none was.
fn pour_refused(out: &mut Output, number: u64, n: u64)
    ensures { Adds out.old (refused_line number n) out.new }
{
    if n == 0 {
        return;
    }
    out.pour_counted(b"refused ", number);
    out.pour_counted_line(b" ", n);
}

// By each number, rising. It stops where the output is closed.
pub fn pour_refusals(out: &mut Output, refused: &[u64])
    ensures { Adds out.old (refused_lines (length refused.now) refused.now) out.new }
{
    for (number, n) in refused.iter().enumerate() {
        pour_refused(&mut *out, number as u64, *n);
        if out.is_closed() {
            return;
        }
    }
}

// How many lists were read.
pub fn pour_lists(out: &mut Output, n: u64)
    ensures { Adds out.old (lists_line n) out.new }
{
    out.pour_counted_line(b"lists ", n);
}

fn pour_tile(out: &mut Output, tile: u64, pits: u64, sure: u64)
    ensures { Adds out.old (tile_line tile pits sure) out.new }
{
    out.pour_counted(b"tile ", tile);
    out.pour_counted(b" pits ", pits);
    out.pour_counted_line(b" sure ", sure);
}

// The first n tiles. It stops where the output is closed.
pub fn pour_tiles(out: &mut Output, n: usize, tile: &[u64], pits: &[u64], sure: &[u64])
    ensures { Adds out.old (tile_lines n tile.now pits.now sure.now) out.new }
{
    for i in 0..n {
        pour_tile(
            &mut *out,
            words::word(tile, i),
            words::word(pits, i),
            words::word(sure, i),
        );
        if out.is_closed() {
            return;
        }
    }
}

// The one line of a count that is refused.
pub fn pour_refusal(out: &mut Output, number: u32)
    ensures { Adds out.old (refusal_line number) out.new }
{
    out.pour_counted_line(b"refused ", number as u64);
}
