// What a C host asks of the sets of a count: the tile lines, and the pits of a tile.
#![tactic(auto)]

ghost use Rattle.std.specs.Prelude.{◌≡◌, ◌||◌, ltb, length};
ghost use Rattle.wire.specs.Slices.{buffer};
ghost use Rattle.pit_marks.specs.Sets.{sets_of};
ghost use Rattle.tile_pits.specs.Pits.{map_of};
ghost use Rattle.host_pits.specs.Lines.{LinesTold};
ghost use Rattle.host_pits.specs.Told.{PitsTold};

use pit_marks::Sizes;

// Whether one of three outputs has less room than for n numbers.
fn no_room(tile: &[u64], pit: &[u64], certain: &[u64], n: usize) -> bool
    ensures { result ≡ (ltb (length tile.now) n || (ltb (length pit.now) n || ltb (length certain.now) n)) }
{
    if tile.len() < n {
        return true;
    }
    if pit.len() < n {
        return true;
    }
    certain.len() < n
}

// The tile lines of sets: 0, and of each tile its number, its pits and its sure pits. Where one of the three has no room it is 13, and nothing is written.
#[unsafe(no_mangle)]
pub extern "C" fn qm_count_lines(
    tile: &mut [u64],
    pit: &mut [u64],
    certain: &mut [u64],
    tiles: &[u64],
    pits: &[u64],
    sure: &[u64],
    had_tiles: usize,
    had_pits: usize,
    had_sure: usize,
) -> u32
    ensures { LinesTold (sets_of tiles.now pits.now sure.now) (record { tiles = had_tiles; pits = had_pits; sure = had_sure }) (buffer tile) (buffer pit) (buffer certain) result }
{
    let had = Sizes {
        tiles: wire::least(had_tiles, tiles.len()),
        pits: wire::least(had_pits, pits.len()),
        sure: wire::least(had_sure, sure.len()),
    };
    if no_room(&*tile, &*pit, &*certain, had.tiles) {
        return 13;
    }
    pit_marks::put_lines(tile, pit, certain, tiles, pits, sure, had);
    0
}

// The pits of a tile out of sets: 0, and how many they are at the start of told. Where one of the three has no room it is 13, and nothing is written.
#[unsafe(no_mangle)]
pub extern "C" fn qm_pits(
    tile: u64,
    pits: &[u64],
    sure: &[u64],
    had_pits: usize,
    had_sure: usize,
    number: &mut [u64],
    certain: &mut [u64],
    told: &mut [u64],
) -> u32
    ensures { PitsTold (map_of pits.now had_pits sure.now had_sure) tile (buffer number) (buffer certain) (buffer told) result }
{
    if told.len() < 1 {
        return 13;
    }
    let given = tile_pits::pits_from(tile, pits, had_pits, sure, had_sure, number, certain);
    match given {
        Ok(n) => {
            words::put_word(told, 0, n as u64);
            0
        }
        Err(e) => e.number(),
    }
}
