// One payload for the count: its survey message is read into the lent number list, and the tile and marks of a PitList are entered in the sets.
#![tactic(auto)]

ghost use Rattle.std.specs.Prelude.{◌≡◌};
ghost use Rattle.refusals.specs.Numbers.{number_of};
ghost use Rattle.pit_marks.specs.declared.Sizes.{Sizes};
ghost use Rattle.pit_marks.specs.Told.{sets_in, SameWords};
ghost use Rattle.pit_payloads.specs.Looked.{told};
ghost use Rattle.pit_payloads.specs.Looks.{book, in_numbers, Leaves, Looks};
ghost use Rattle.pit_payloads.specs.Inside.{unread_by};
ghost use Rattle.pit_payloads.specs.Took.{sizes_in};

use pit_marks::PitSets;
use refusals::Refusal;

// The numbers of an accepted message: whether they are a PitList's, which is then entered.
fn enter_numbers(list: &[i64], sets: &mut PitSets) -> Result<bool, Refusal>
    ensures same { SameWords sets.old sets.new }
    ensures sizes { sets.new.sizes ≡ sizes_in sets.old.sizes (told result sets.new.sizes) }
    ensures left { Leaves (in_numbers list.now (sets_in sets.old) sets.old.sizes) (told result sets.new.sizes) (sets_in sets.new) }
{
    if !pit_marks::is_list(list) {
        return Ok(false);
    }
    pit_marks::enter_list(list, sets)?;
    Ok(true)
}

// A message that was not read is no list; only that the number list is too short for it stands against it.
fn unread(e: Refusal) -> Result<bool, Refusal>
    ensures { (had : Sizes) → told result had ≡ unread_by had (number_of e) }
{
    match e {
        Refusal::NoRoom => Err(e),
        _ => Ok(false),
    }
}

// Takes one payload: only a message that is accepted is looked into. It answers whether that is a PitList.
pub fn take_payload(
    payload: &[u8],
    numbers: &mut [i64],
    sets: &mut PitSets,
) -> Result<bool, Refusal>
    ensures same { SameWords sets.old sets.new }
    ensures sizes { sets.new.sizes ≡ sizes_in sets.old.sizes (told result sets.new.sizes) }
    ensures looks { Looks payload.now (book numbers.old (sets_in sets.old)) sets.old.sizes (told result sets.new.sizes) (book numbers.new (sets_in sets.new)) }
{
    match lmcp_reader::read_message(payload, &mut *numbers) {
        Ok(n) => enter_numbers(&numbers[..n], sets),
        Err(e) => unread(e),
    }
}
