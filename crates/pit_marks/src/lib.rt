// A PitList's tile and marks, from the numbers of its message, into three sets of rising numbers: the tiles, the pits of all tiles, and those
// of them that were marked sure. A pit under a tile is one number, the tile's number before its own.
#![tactic(auto)]

ghost use Rattle.std.specs.Prelude.{◌≡◌, ◌≤◌, ◌+◌, ◌%◌, eqb, length};
ghost use Rattle.std.specs.Int.Signed.{mag};
ghost use Rattle.std.specs.List.{prefix_len};
ghost use Rattle.count_rules.specs.Marks.{at, mark_length, mark_at, marks_in};
ghost use Rattle.count_rules.specs.Keys.{span, pit_key};
ghost use Rattle.wire.specs.Slices.{buffer};
ghost use Rattle.sorted_set.specs.Halving.{rank_in};
ghost use Rattle.pit_marks.specs.Sets.{sets_of};
ghost use Rattle.pit_marks.specs.Told.{told, sets_in, SameWords};
ghost use Rattle.pit_marks.specs.Enters.{key_in, enter_pit_lem, enter_marks, EntersList};
ghost use Rattle.pit_marks.specs.Inside.{Leaves};
ghost use Rattle.pit_marks.specs.Lines.{pits_in, Lays};

use refusals::Refusal;

// How many numbers there are for tiles, and for pits.
pub const SPAN: u64 = 4294967296;

// How many numbers each set has.
#[derive(Clone, Copy, Debug, PartialEq, Eq)]
pub struct Sizes {
    pub tiles: usize,
    pub pits: usize,
    pub sure: usize,
}

// The three sets in the words that are lent for them, and how many numbers each has. A list that is refused leaves them with what was entered by then.
#[derive(Drop)]
pub struct PitSets<'a> {
    pub tiles: &'a mut [u64],
    pub pits: &'a mut [u64],
    pub sure: &'a mut [u64],
    pub sizes: Sizes,
}

// Number i of a list: 0 past its end.
pub fn number_at(list: &[i64], i: usize) -> u64
    ensures { result ≡ at list.now i }
{
    if i < list.len() {
        lmcp::size_of(list[i])
    } else {
        0
    }
}

// Pit p under tile t.
fn key_of(t: u64, p: u64) -> u64
    ensures { result ≡ key_in t p }
{
    (t % SPAN) * SPAN + p % SPAN
}

// Whether the numbers of a message are those of a PitList: the type of its root stands behind the version.
pub fn is_list(list: &[i64]) -> bool
    ensures { result ≡ eqb (at list.now 1) 5 }
{
    number_at(list, 1) == 5
}

// How many numbers the first element of these takes. A mark of version 2 has one for its depth.
pub fn element_length(elements: &[i64], two: bool) -> usize
    ensures { result ≡ mark_length two elements.now }
{
    if number_at(elements, 0) == 0 {
        return 1;
    }
    let depth = if two { 1 } else { 0 };
    if number_at(elements, 3) == 0 {
        4 + depth
    } else {
        7 + depth
    }
}

// Whether a number stands for a null.
fn is_null(z: i64) -> bool
    ensures { result ≡ eqb (mag z) 0 }
{
    lmcp::size_of(z) == 0
}

// How many nulls these begin with.
fn nulls_in(elements: &[i64]) -> usize
    ensures many { result ≡ prefix_len (λ z. eqb (mag z) 0) elements.now }
    ensures within { result ≤ length elements.now }
{
    elements.iter().take_while(|z| is_null(**z)).count()
}

// A pit is entered among all, and among the sure ones if it is sure.
fn enter_pit(sets: &mut PitSets, x: u64, is_sure: bool) -> Result<(), Refusal>
    ensures same { SameWords sets.old sets.new }
    ensures tiles { sets.new.tiles.now ≡ sets.old.tiles.now }
    ensures left { Leaves (enter_pit_lem is_sure x sets.old.pits.now sets.old.sure.now sets.old.sizes) (told result sets.new.sizes) sets.new.pits.now sets.new.sure.now }
{
    sets.sizes.pits = sorted_set::enter(&mut *sets.pits, sets.sizes.pits, x).ok_or(
        Refusal::TooManyPits,
    )?;
    if is_sure {
        sets.sizes.sure = sorted_set::enter(&mut *sets.sure, sets.sizes.sure, x).ok_or(
            Refusal::TooManyPits,
        )?;
    }
    Ok(())
}

// The first element of these: a null one is skipped.
fn enter_element(elements: &[i64], tile: u64, sets: &mut PitSets) -> Result<(), Refusal>
    ensures same { SameWords sets.old sets.new }
    ensures tiles { sets.new.tiles.now ≡ sets.old.tiles.now }
    ensures left { Leaves (enter_marks tile (mark_at elements.now) sets.old.pits.now sets.old.sure.now sets.old.sizes) (told result sets.new.sizes) sets.new.pits.now sets.new.sure.now }
{
    if number_at(elements, 0) == 0 {
        return Ok(());
    }
    let is_sure = number_at(elements, 2) != 0;
    enter_pit(sets, key_of(tile, number_at(elements, 1)), is_sure)
}

// The elements of a list, which stand behind its head. Nulls are passed over at once.
fn enter_elements(elements: &[i64], tile: u64, two: bool, sets: &mut PitSets) -> Result<(), Refusal>
    ensures same { SameWords sets.old sets.new }
    ensures tiles { sets.new.tiles.now ≡ sets.old.tiles.now }
    ensures left { Leaves (enter_marks tile (marks_in two (length elements.now) elements.now) sets.old.pits.now sets.old.sure.now sets.old.sizes) (told result sets.new.sizes)
        sets.new.pits.now sets.new.sure.now }
{
    let mut rest = elements;
    while !rest.is_empty() {
        rest = &rest[nulls_in(rest)..];
        enter_element(rest, tile, &mut *sets)?;
        rest = &rest[element_length(rest, two).min(rest.len())..];
    }
    Ok(())
}

// Enters a PitList, from the numbers of its message: its tile, then its pits.
pub fn enter_list(list: &[i64], sets: &mut PitSets) -> Result<(), Refusal>
    ensures same { SameWords sets.old sets.new }
    ensures enters { EntersList list.now (sets_in sets.old) sets.old.sizes (told result sets.new.sizes) (sets_in sets.new) }
{
    let tile = number_at(list, 2);
    sets.sizes.tiles = sorted_set::enter(&mut *sets.tiles, sets.sizes.tiles, tile).ok_or(
        Refusal::TooManyTiles,
    )?;
    let two = number_at(list, 0) == 2;
    enter_elements(&list[list.len().min(4)..], tile, two, sets)
}

// ---- the tile lines

// Where the pits of a tile begin among the first n, and how many they are.
pub fn pits_of(pits: &[u64], n: usize, tile: u64) -> (usize, usize)
    ensures first { result.0 ≡ rank_in pits.now n (pit_key (tile % span) 0) }
    ensures many { result.1 ≡ pits_in pits.now n tile }
    ensures within { result.0 + result.1 ≤ length pits.now }
{
    let t = tile % SPAN;
    let first = sorted_set::rank(pits, n, t * SPAN);
    let end = if t + 1 < SPAN {
        sorted_set::rank(pits, n, (t + 1) * SPAN)
    } else {
        n.min(pits.len())
    };
    (first, end.saturating_sub(first))
}

// Of each tile its number, its pits and its sure pits, at the start of three outputs.
pub fn put_lines(
    tile: &mut [u64],
    pit: &mut [u64],
    certain: &mut [u64],
    tiles: &[u64],
    pits: &[u64],
    sure: &[u64],
    had: Sizes,
)
    ensures { Lays (sets_of tiles.now pits.now sure.now) had (buffer tile) (buffer pit) (buffer certain) }
{
    for i in 0..had.tiles {
        let t = words::word(tiles, i);
        words::put_word(tile, i, t);
        words::put_word(pit, i, pits_of(pits, had.pits, t).1 as u64);
        words::put_word(certain, i, pits_of(sure, had.sure, t).1 as u64);
    }
}
