// The marks of a PitList, one by one, from the numbers of its message: a row of eight numbers each, with place and depth. Null marks are skipped.
#![tactic(auto)]

ghost use Rattle.std.specs.Prelude.{◌≡◌, ◌+◌, ◌*◌, ◌%◌, ◌≤◌, min, pos, length, drop};
ghost use Rattle.std.proofs.lemmas.List.Edits.{sets};
ghost use Rattle.wire.specs.Choice.{pick};
ghost use Rattle.count_rules.specs.Marks.{at, mark_length};
ghost use Rattle.count_rules.specs.Keys.{span};
ghost use Rattle.mark_rows.specs.Placed.{signed_at, placed_at};
ghost use Rattle.mark_rows.specs.Rows.{rows_of, rows_told, GivesRows};
ghost use Rattle.mark_rows.specs.InsideRows.{row_at, placed_from, LaysRows};

use refusals::Refusal;

// How many numbers there are for pits.
const SPAN: u64 = 4294967296;

// How many numbers a row has.
pub const ROW: usize = 8;

// The marks of a PitList: its tile, and how many rows there are.
#[derive(Clone, Copy)]
pub struct Marks {
    pub tile: u64,
    pub rows: usize,
}

// Number i from a place of a list on: 0 past its end.
fn number_at(list: &[i64], place: usize, i: usize) -> i64
    ensures { result ≡ signed_at (drop place list.now) i }
{
    if i < wire::room(list.len(), place) {
        return list[place + i];
    }
    0
}

// Its size.
fn size_at(list: &[i64], place: usize, i: usize) -> u64
    ensures { result ≡ at (drop place list.now) i }
{
    lmcp::size_of(number_at(list, place, i))
}

// The number where there is one, else 0.
fn number_if(some: bool, list: &[i64], place: usize, i: usize) -> i64
    ensures { result ≡ pick some (signed_at (drop place list.now) i) (pos 0) }
{
    if some {
        return number_at(list, place, i);
    }
    0
}

fn one_if(b: bool) -> i64
    ensures { result ≡ pos (pick b 1 0) }
{
    i64::from(b)
}

// A pit as a number of a row.
fn pit_of(p: u64) -> i64
    ensures { result ≡ pos (p % span) }
{
    (p % SPAN) as i64
}

// Which number of a mark is its depth, behind its place.
fn depth_place(placed: bool) -> usize
    ensures { result ≡ pick placed 7 4 }
{
    if placed { 7 } else { 4 }
}

// How many numbers the element at a place takes.
fn element_length(list: &[i64], place: usize, two: bool) -> usize
    ensures { result ≡ mark_length two (drop place list.now) }
{
    if size_at(list, place, 0) == 0 {
        return 1;
    }
    let end = depth_place(size_at(list, place, 3) != 0);
    if two { end + 1 } else { end }
}

// Where the next element begins, or the end.
fn next_place(list: &[i64], place: usize, two: bool) -> usize
    ensures { result ≡ min (place + mark_length two (drop place list.now)) (length list.now) }
{
    let n = element_length(list, place, two);
    if n < wire::room(list.len(), place) {
        return place + n;
    }
    list.len()
}

// The row of the mark at a place.
fn row_at(list: &[i64], place: usize, two: bool) -> [i64; 8]
    ensures { result ≡ row_at two (drop place list.now) }
{
    let placed = size_at(list, place, 3) != 0;
    [
        pit_of(size_at(list, place, 1)),
        one_if(size_at(list, place, 2) != 0),
        one_if(placed),
        number_if(placed, list, place, 4),
        number_if(placed, list, place, 5),
        number_if(placed, list, place, 6),
        one_if(two),
        number_if(two, list, place, depth_place(placed)),
    ]
}

// The numbers of src at a place.
fn put_numbers(rows: &mut [i64], q: usize, src: &[i64])
    requires { q + length src.now ≤ length rows.old }
    ensures { rows.new ≡ sets rows.old q src.now }
{
    for i in 0..src.len() {
        rows[q + i] = src[i];
    }
}

// 1 where the element at a place is a mark, 0 where it is null.
fn marks_at(list: &[i64], place: usize, two: bool) -> usize
    ensures { result ≡ length (placed_at two (drop place list.now)) }
{
    if size_at(list, place, 0) == 0 { 0 } else { 1 }
}

// How many marks there are from the first element on.
fn count_marks(list: &[i64], two: bool) -> usize
    ensures { result ≡ length (placed_from two list.now 4) }
{
    let mut n: usize = 0;
    let mut place: usize = 4;
    while place < list.len() {
        n += marks_at(list, place, two);
        place = next_place(list, place, two);
    }
    n
}

// The element at a place, a row if it is a mark; and where the next row begins.
fn put_element(rows: &mut [i64], q: usize, list: &[i64], place: usize, two: bool) -> usize
    requires { q + 8 * length (placed_at two (drop place list.now)) ≤ length rows.old }
    ensures { LaysRows (placed_at two (drop place list.now)) rows.old q rows.new result }
{
    if size_at(list, place, 0) == 0 {
        return q;
    }
    let row = row_at(list, place, two);
    put_numbers(rows, q, &row);
    q + ROW
}

// A row for each mark, from the first element on.
fn put_rows(rows: &mut [i64], list: &[i64], two: bool)
    requires { 8 * length (placed_from two list.now 4) ≤ length rows.old }
    ensures { rows.new ≡ sets rows.old 0 (rows_of (placed_from two list.now 4)) }
{
    let mut q: usize = 0;
    let mut place: usize = 4;
    while place < list.len() {
        q = put_element(&mut *rows, q, list, place, two);
        place = next_place(list, place, two);
    }
}

// The marks of a PitList as rows, at the start of the output; none where the numbers are not those of a PitList.
pub fn marks_of(list: &[i64], rows: &mut [i64]) -> Result<Option<Marks>, Refusal>
    ensures { GivesRows list.now rows.old (rows_told result) rows.new }
{
    if !pit_marks::is_list(list) {
        return Ok(None);
    }
    let two = size_at(list, 0, 0) == 2;
    let n = count_marks(list, two);
    if rows.len() / ROW < n {
        return Err(Refusal::NoRoom);
    }
    put_rows(rows, list, two);
    Ok(Some(Marks {
        tile: size_at(list, 0, 2),
        rows: n,
    }))
}
