// Which pits a tile has, out of the sets that the count keeps: their numbers, rising, and whether each is sure.
#![tactic(auto)]

ghost use Rattle.wire.specs.Slices.{buffer};
ghost use Rattle.tile_pits.specs.Pits.{map_of, told, GivesPits};
ghost use Rattle.tile_pits.specs.InsidePits.{LaysPits};

use refusals::Refusal;

// Pits, each without its tile, and whether each is sure: 1 or 0.
fn put_pits(number: &mut [u64], certain: &mut [u64], pits: &[u64], sure: &[u64], had_sure: usize)
    ensures { LaysPits pits.now sure.now had_sure (buffer number) (buffer certain) }
{
    for (i, x) in pits.iter().enumerate() {
        words::put_word(number, i, *x % pit_marks::SPAN);
        words::put_word(
            certain,
            i,
            u64::from(sorted_set::find(sure, had_sure, *x).is_ok()),
        );
    }
}

// The pits of a tile, rising, and whether each is sure, at the start of two outputs: how many they are.
pub fn pits_from(
    tile: u64,
    pits: &[u64],
    had_pits: usize,
    sure: &[u64],
    had_sure: usize,
    number: &mut [u64],
    certain: &mut [u64],
) -> Result<usize, Refusal>
    ensures { GivesPits (map_of pits.now had_pits sure.now had_sure) tile (buffer number) (buffer certain) (told result) }
{
    let (first, n) = pit_marks::pits_of(pits, had_pits, tile);
    if number.len() < n || certain.len() < n {
        return Err(Refusal::NoRoom);
    }
    put_pits(number, certain, &pits[first..first + n], sure, had_sure);
    Ok(n)
}
