// An index file: how many bytes of a log an index covers, and its rows, in bytes that are kept beside the log. Rows are looked at where they stand.
#![tactic(auto)]

ghost use Rattle.std.specs.Prelude.{◌≡◌, [], ◌∷◌, ◌+◌, ◌*◌, ◌≤◌, length};
ghost use Rattle.wire.specs.Overlay.{overlay};
ghost use Rattle.log_index.specs.Words.{row_said, words_of};
ghost use Rattle.index_file.specs.File.{file_row, first_rows, in_order_lem};
ghost use Rattle.index_file.specs.Files.{head_in, answer_told, ReadsRows};
ghost use Rattle.index_file.specs.Head.{head_told};

use log_index::Row;
use refusals::Refusal;

// The first byte of an index file.
pub const EDITION: u8 = 1;

// The bytes of its head, and those of a row.
pub const HEAD_LENGTH: usize = 1 + 8 + 8;

pub const ROW_LENGTH: usize = 8 + 4 + 8;

// Row i, where it stands: zeros where there are no bytes for it.
pub fn row_at(file: &[u8], i: usize) -> Row
    ensures { row_said result ≡ file_row file.now i }
{
    let n = file.len().saturating_sub(HEAD_LENGTH) / ROW_LENGTH;
    if n <= i {
        return Row {
            sender: 0,
            sequence: 0,
            place: 0,
        };
    }
    let at = HEAD_LENGTH + ROW_LENGTH * i;
    Row {
        sender: wire::number(file, at, 8),
        sequence: wire::number(file, at + 8, 4),
        place: wire::number(file, at + 12, 8),
    }
}

// The head of an index file: how many bytes of the log it covers, and how many rows it has. The rows are not looked at.
pub fn read_head(file: &[u8]) -> Result<(u64, usize), Refusal>
    ensures { head_told result ≡ head_in file.now }
{
    if file.len() < HEAD_LENGTH {
        return Err(Refusal::NotAnIndex);
    }
    if file[0] != EDITION {
        return Err(Refusal::NotAnIndex);
    }
    let rest = file.len() - HEAD_LENGTH;
    if rest % ROW_LENGTH != 0 {
        return Err(Refusal::NotAnIndex);
    }
    let n = rest / ROW_LENGTH;
    if wire::number(file, 9, 8) != n as u64 {
        return Err(Refusal::NotAnIndex);
    }
    Ok((wire::number(file, 1, 8), n))
}

// None of the first n rows comes before the one in front of it.
fn in_order(file: &[u8], n: usize) -> bool
    ensures { result ≡ in_order_lem (file_row file.now) n }
{
    for i in 1..n {
        let before = row_at(file, i - 1);
        let row = row_at(file, i);
        if log_index::is_before(row, before) {
            return false;
        }
    }
    true
}

// Row i to its three words.
fn put_words(index: &mut [u64], i: usize, row: Row)
    requires { 3 * i + 3 ≤ length index.old }
    ensures { index.new ≡ overlay index.old (3 * i) (words_of (row_said row ∷ [])) }
{
    let numbers = [row.sender, row.sequence, row.place];
    words::put_words(index, 3 * i, &numbers);
}

// The first n rows to the start of lent words.
fn copy_rows(file: &[u8], n: usize, index: &mut [u64])
    requires { 3 * n ≤ length index.old }
    ensures { index.new ≡ overlay index.old 0 (words_of (first_rows n (file_row file.now))) }
{
    for i in 0..n {
        put_words(&mut *index, i, row_at(file, i));
    }
}

// The rows of an index file to the start of lent words.
pub fn read_rows(file: &[u8], index: &mut [u64]) -> Result<(), Refusal>
    ensures { ReadsRows file.now index.old (answer_told result) index.new }
{
    let (_, n) = read_head(file)?;
    if !in_order(file, n) {
        return Err(Refusal::NotAnIndex);
    }
    if index.len() / 3 < n {
        return Err(Refusal::NoRoom);
    }
    copy_rows(file, n, index);
    Ok(())
}
