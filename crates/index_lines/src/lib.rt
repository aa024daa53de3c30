// What the programs over an index share: their lines.
#![tactic(auto, using(output::proofs::Adding::adds_then))]

ghost use Rattle.output.specs.Output.{Adds};
ghost use Rattle.log_index.specs.Words.{row_said, says};
ghost use Rattle.index_lines.specs.Lines.{row_line, refused_line, place_line};

use log_index::Row;
use output::Output;

// The words of a full index.
pub const WORDS: usize = 3 * log_index::MAX_INDEX;

// A row of the index.
pub fn pour_row(out: &mut Output, row: Row)
    ensures { Adds out.old (row_line (row_said row)) out.new }
{
    out.pour_counted(b"sender ", row.sender);
    out.pour_counted(b" sequence ", row.sequence);
    out.pour_counted_line(b" place ", row.place);
}

// The one line of a refusal.
pub fn pour_refused(out: &mut Output, number: u32)
    ensures { Adds out.old (refused_line number) out.new }
{
    out.pour_counted_line(b"refused ", number as u64);
}

// Where the first entry of a key begins.
pub fn pour_found(out: &mut Output, found: Option<u64>)
    ensures { Adds out.old (place_line (says found)) out.new }
{
    match found {
        Some(place) => out.pour_counted_line(b"place ", place),
        None => out.pour(b"none\n"),
    }
}
