// The receiver over a log's datagrams: the log's limits bind beside the slot size. They never concern small messages.
#![tactic(auto)]

ghost use Rattle.std.specs.Prelude.{◌≡◌, min};
ghost use Rattle.datagram.specs.Read.{told};
ghost use Rattle.datagram.specs.Limits.{max_fragments};
ghost use Rattle.steps.specs.Slots.{no_name_lem};
ghost use Rattle.steps.specs.declared.Answer.TheVariants.{Refused};
ghost use Rattle.steps.specs.declared.Emptied.TheVariants.{Nobody};
ghost use Rattle.receiver.specs.Lent.{lent_before, lent_after};
ghost use Rattle.within_limits.specs.Within.{read_within_lem, ReceivesWithin};

use datagram::Header;
use flight_log::Limits;
use receiver::Outcome;
use refusals::Refusal;
use steps::{Answer, Emptied};

// The smaller of a log's and the receiver's number of fragments.
fn fewest(fragments: u32) -> u32
    ensures { result ≡ min max_fragments fragments }
{
    datagram::MAX_FRAGMENTS.min(fragments)
}

// What a datagram says, for slots of `room` bytes and within a log's limits.
fn read_within(limits: Limits, room: usize, d: &[u8]) -> Result<Header, Refusal>
    ensures { told result ≡ read_within_lem limits room d.now }
{
    datagram::read_datagram(d, room.min(limits.payload), fewest(limits.fragments))
}

fn refused(refusal: Refusal) -> Outcome
    ensures { result ≡ record { answer = Refused refusal; emptied = Nobody; name = no_name_lem } }
{
    Outcome {
        answer: Answer::Refused(refusal),
        emptied: Emptied::Nobody,
        name: [0u8; datagram::MAX_NAME],
    }
}

// What is done with a datagram of that sender, out of a log with those limits. A state that is not ready is refused by 9, as ever.
pub fn receive_within(
    state: &mut [u64],
    names: &mut [u8],
    store: &mut [u8],
    ledger: &mut [u32],
    limits: Limits,
    sender: u64,
    d: &[u8],
) -> Outcome
    ensures { ReceivesWithin limits (lent_before state names store ledger) sender d.now result (lent_after state names store ledger) }
{
    let room = words::word(&*state, receiver_state::SLOT_SIZE);
    if let Err(refusal) = read_within(limits, room as usize, d) {
        if receiver_state::is_ready(&*state, &*names, store.len(), ledger.len()) {
            return refused(refusal);
        }
    }
    receiver::receive(state, names, store, ledger, sender, d)
}
