// Two sequence numbers modulo 2^32: their difference, what it says of the newer one, and whether that moves a watch.
#![tactic(auto)]

ghost use Rattle.std.specs.Prelude.{◌≡◌};
ghost use Rattle.differences.specs.Noted.{notes, noted_code_lem, moves};
ghost use Rattle.differences.specs.Difference.{difference, told};

use refusals::Refusal;

// Late by as much stays Late; by more it is a restart.
pub const MOST_LATE: u32 = 1024;

// What the watch says of a number: how many are missing before it, by how many it is late, or that the sender restarted there.
#[derive(Clone, Copy, Debug, PartialEq, Eq)]
pub enum Answer {
    First,
    Forward(u32),
    Same,
    Late(u32),
    Restarted(u32),
    Refused(Refusal),
}

// New minus last, modulo 2^32, read as a signed number.
pub fn sequence_difference(new: u32, last: u32) -> i32
    ensures { result ≡ difference new last }
{
    new.wrapping_sub(last).cast_signed()
}

// What a difference says of a number.
pub fn tell(number: u32, d: i32) -> Answer
    ensures { notes result ≡ told number d }
{
    let by = d.unsigned_abs();
    if d < 0 {
        if by <= MOST_LATE {
            return Answer::Late(by);
        }
        return Answer::Restarted(number);
    }
    if by == 0 {
        return Answer::Same;
    }
    Answer::Forward(by - 1)
}

// One of each kind, as one number.
const KIND: u64 = 1 << 32;

impl Answer {
    // Whether it moves the watch: Same, Late and a refusal do not.
    pub fn does_move(self) -> bool
        ensures { result ≡ moves (notes self) }
    {
        match self {
            Answer::First | Answer::Forward(_) | Answer::Restarted(_) => true,
            Answer::Same | Answer::Late(_) | Answer::Refused(_) => false,
        }
    }

    // As one number: the kind times 2^32 and the number beside it, or the number of the refusal.
    pub fn code(self) -> u64
        ensures { result ≡ noted_code_lem (notes self) }
    {
        match self {
            Answer::First => KIND,
            Answer::Forward(missing) => 2 * KIND + u64::from(missing),
            Answer::Same => 3 * KIND,
            Answer::Late(by) => 4 * KIND + u64::from(by),
            Answer::Restarted(number) => 5 * KIND + u64::from(number),
            Answer::Refused(refusal) => u64::from(refusal.number()),
        }
    }
}
