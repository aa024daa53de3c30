// Looking a key up in an index file: by halving over the rows where they stand, and then at the entry of the log, before it is believed.
#![tactic(auto)]

ghost use Rattle.std.specs.Prelude.{◌≡◌, ◌&&◌, ◌≤◌, ltb};
ghost use Rattle.datagram.specs.Read.{read_datagram_lem};
ghost use Rattle.log_index.specs.Rows.{earlier, is_of};
ghost use Rattle.log_index.specs.Words.{row_said, says};
ghost use Rattle.index_file.specs.File.{file_row};
ghost use Rattle.index_look.specs.Keys.{sequence_is_lem, has_key, leads, ends_lead_lem};
ghost use Rattle.index_look.specs.Look.{file_rank, found_in_file, believed, looked_up_lem};
ghost use Rattle.index_look.specs.Looked.{looked_told};

use flight_log::Limits;
use halving::Halved;
use log_index::Row;
use refusals::Refusal;

// ---- the log

// A datagram that the reader accepts within the log's limits has a sequence.
fn sequence_is(datagram: &[u8], limits: Limits, sequence: u64) -> bool
    ensures { result ≡ sequence_is_lem sequence (read_datagram_lem limits.payload limits.fragments datagram.now) }
{
    let Ok(header) = datagram::read_datagram(datagram, limits.payload, limits.fragments) else {
        return false;
    };
    header.sequence as u64 == sequence
}

// The entry at a place of the log has a key.
fn has_key(log: &[u8], place: u64, sender: u64, sequence: u64) -> bool
    ensures { result ≡ has_key log.now place sender sequence }
{
    let Ok((_, limits)) = flight_log::first_entry(log) else {
        return false;
    };
    let Ok(step) = flight_log::next_entry(log, place as usize) else {
        return false;
    };
    let Some(entry) = step else {
        return false;
    };
    let datagram = wire::part(log, entry.at, entry.len);
    entry.sender == sender && sequence_is(datagram, limits, sequence)
}

// A row leads to an entry of its own key.
fn is_led(log: &[u8], row: Row) -> bool
    ensures { result ≡ leads log.now (row_said row) }
{
    has_key(log, row.place, row.sender, row.sequence)
}

// The first and the last of n rows lead to entries of their keys.
fn ends_lead(log: &[u8], file: &[u8], n: usize) -> bool
    ensures { result ≡ ends_lead_lem log.now (file_row file.now) n }
{
    if n == 0 {
        return true;
    }
    is_led(log, index_file::row_at(file, 0)) && is_led(log, index_file::row_at(file, n - 1))
}

// ---- the file

// The first n rows, each asked whether it comes before a row.
#[derive(Drop)]
struct Before<'a> {
    file: &'a [u8],
    n: usize,
    row: Row,
}

impl Halved for Before<'_> {
    ghost many = { λ s. s.n };

    ghost holds = { λ s i. earlier (file_row s.file.now i) (row_said s.row) };

    fn count(&self) -> usize {
        self.n
    }

    fn test(&self, i: usize) -> bool {
        log_index::is_before(index_file::row_at(self.file, i), self.row)
    }
}

// The place of a row among the first n.
fn rank(file: &[u8], n: usize, row: Row) -> usize
    ensures { (result ≡ file_rank file.now n (row_said row)) × (result ≤ n) }
{
    halving::partition_point(&Before { file, n, row })
}

// A row, of those before n, has a key.
fn is_of(row: Row, i: usize, n: usize, sender: u64, sequence: u64) -> bool
    ensures { result ≡ (ltb i n && is_of sender sequence (row_said row)) }
{
    i < n && row.sender == sender && row.sequence == sequence
}

// Where the first entry of a key begins, by the first n rows.
fn find_in(file: &[u8], n: usize, sender: u64, sequence: u64) -> Option<u64>
    ensures { says result ≡ found_in_file file.now n sender sequence }
{
    let key = Row {
        sender,
        sequence,
        place: 0,
    };
    let i = rank(file, n, key);
    let row = index_file::row_at(file, i);
    if is_of(row, i, n, sender, sequence) {
        return Some(row.place);
    }
    None
}

// What was found is believed where the entry there has the key.
fn judge(log: &[u8], sender: u64, sequence: u64, found: Option<u64>) -> Result<Option<u64>, Refusal>
    ensures { looked_told result ≡ believed log.now sender sequence (says found) }
{
    let Some(place) = found else {
        return Ok(None);
    };
    if has_key(log, place, sender, sequence) {
        return Ok(Some(place));
    }
    Err(Refusal::AnotherLog)
}

// Where the first entry of a key begins in a log, by its index file.
pub fn look_up(log: &[u8], file: &[u8], sender: u64, sequence: u64) -> Result<Option<u64>, Refusal>
    ensures { looked_told result ≡ looked_up_lem log.now file.now sender sequence }
{
    let (covered, n) = index_file::read_head(file)?;
    if (log.len() as u64) < covered {
        return Err(Refusal::AnotherLog);
    }
    if !ends_lead(log, file, n) {
        return Err(Refusal::AnotherLog);
    }
    judge(log, sender, sequence, find_in(file, n, sender, sequence))
}
