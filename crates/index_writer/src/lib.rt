// An index file is written: the rows of an index, and how many bytes of the log they cover.
#![tactic(auto)]

ghost use Rattle.std.specs.Prelude.{◌≡◌, ◌+◌, ◌*◌, ◌≤◌, length};
ghost use Rattle.wire.specs.Overlay.{overlay};
ghost use Rattle.log_index.specs.Words.{row_said, row_at};
ghost use Rattle.index_file.specs.File.{head_of, row_bytes, rows_bytes, first_rows};
ghost use Rattle.index_file.specs.Files.{answer_told};
ghost use Rattle.index_writer.specs.Writes.{WritesFile};
ghost use Rattle.index_writer.specs.Inside.{Holds};

use log_index::Row;
use refusals::Refusal;

// The head of n rows.
fn put_head(file: &mut [u8], covered: u64, n: usize)
    ensures { file.new ≡ overlay file.old 0 (head_of covered n) }
{
    wire::put_number(&mut *file, 0, 1, index_file::EDITION as u64);
    wire::put_number(&mut *file, 1, 8, covered);
    wire::put_number(&mut *file, 9, 8, n as u64);
}

// A row at a place.
fn put_row(file: &mut [u8], at: usize, row: Row)
    requires { at + 20 ≤ length file.old }
    ensures { file.new ≡ overlay file.old at (row_bytes (row_said row)) }
{
    wire::put_number(&mut *file, at, 8, row.sender);
    wire::put_number(&mut *file, at + 8, 4, row.sequence);
    wire::put_number(&mut *file, at + 12, 8, row.place);
}

// Row i of some words.
fn row_at(index: &[u64], i: usize) -> Row
    requires { 3 * i + 3 ≤ length index.now }
    ensures { row_said result ≡ row_at index.now i }
{
    let at = 3 * i;
    Row {
        sender: index[at],
        sequence: index[at + 1],
        place: index[at + 2],
    }
}

// The first n rows of some words behind the head.
fn put_rows(index: &[u64], n: usize, file: &mut [u8])
    requires { (3 * n ≤ length index.now) × Holds file.old n }
    ensures { file.new ≡ overlay file.old 17 (rows_bytes (first_rows n (row_at index.now))) }
{
    for i in 0..n {
        let at = index_file::HEAD_LENGTH + index_file::ROW_LENGTH * i;
        put_row(&mut *file, at, row_at(index, i));
    }
}

// The index file of the first n rows of lent words, at the start of lent bytes.
pub fn write_file(index: &[u64], n: usize, covered: u64, file: &mut [u8]) -> Result<(), Refusal>
    ensures { WritesFile index.now n covered file.old (answer_told result) file.new }
{
    if index.len() / 3 < n {
        return Err(Refusal::NoRoom);
    }
    if file.len() < index_file::HEAD_LENGTH {
        return Err(Refusal::NoRoom);
    }
    if (file.len() - index_file::HEAD_LENGTH) / index_file::ROW_LENGTH < n {
        return Err(Refusal::NoRoom);
    }
    put_head(&mut *file, covered, n);
    put_rows(index, n, file);
    Ok(())
}
