// The turns of a receiver's slots: which was opened longest ago, and what becomes of the others' turns when one is freed. Every public function is total over any slice.
#![tactic(auto)]

ghost use Rattle.std.specs.Prelude.{◌≡◌, true, ℕ, ◌<◌, ◌≤◌};
ghost use Rattle.steps.specs.Limits.{slot_count};
ghost use Rattle.ranks.specs.Ranks.{ranks_lowered, lowest_ranked_lem};
ghost use Rattle.slots.specs.Words.{turn_word, turns, at};

use ranks::Ranked;

// Where the slots keep their turns, which are ranks: 0 for the slot that was opened longest ago.
fn turns() -> Ranked
    ensures { result ≡ turns }
{
    Ranked {
        first: slots::HEAD,
        stride: slots::BLOCK,
        mark: slots::COUNT,
        rank: slots::TURN,
    }
}

// The lowest of the slots with the lowest turn.
pub fn oldest(state: &[u64]) -> usize
    ensures { result ≡ lowest_ranked_lem state.now turns slot_count }
{
    ranks::lowest_ranked(state, turns(), slots::SLOTS)
}

// Where this is true, no turn is above t.
fn none_above(state: &[u64], t: u64) -> bool
    ensures { result ≡ true → (i : ℕ) → i < slot_count → at state.now i turn_word ≤ t }
{
    (0..slots::SLOTS).all(|i| slots::word_of(state, i, slots::TURN) <= t)
}

// A slot of turn t was freed: each open slot with a turn above it falls by one.
pub fn lower(state: &mut [u64], t: u64)
    ensures { state.new ≡ ranks_lowered state.old turns t slot_count }
{
    // Most often none was opened after it.
    if none_above(&*state, t) {
        return;
    }
    ranks::lower_ranks(state, turns(), slots::SLOTS, t);
}
