// The two ends of a receiver's work: `open` makes lent memory a fresh receiver, `payload` hands over the bytes that it delivered.
#![tactic(auto)]

ghost use Rattle.std.specs.Prelude.{◌≡◌};
ghost use Rattle.steps.specs.Answers.{answer_told, reply};
ghost use Rattle.open_and_payload.specs.Ends.{Opens, payload_of};

use receiver::Outcome;
use refusals::Refusal;
use steps::{Answer, PayloadAt};

// A fresh receiver over a store of that many bytes.
pub fn open(state: &mut [u64], names: &mut [u8], store_len: usize) -> Result<(), Refusal>
    ensures { Opens state.old names.old store_len result state.new names.new }
{
    if state.len() != receiver::STATE_WORDS {
        return Err(Refusal::WrongMemory);
    }
    if names.len() != receiver::NAME_BYTES {
        return Err(Refusal::WrongMemory);
    }
    state.fill(0);
    names.fill(0);
    words::put_word(&mut *state, receiver_state::STORE_LENGTH, store_len as u64);
    words::put_word(
        state,
        receiver_state::SLOT_SIZE,
        receiver_state::slot_size(store_len) as u64,
    );
    Ok(())
}

// The delivered payload, as the part of the store or of the datagram that holds it: empty for any other answer.
pub fn payload<'a>(outcome: Outcome, store: &'a [u8], d: &'a [u8]) -> &'a [u8]
    ensures { result.now ≡ payload_of (reply d.now store.now (answer_told outcome.answer)) }
{
    let answer = outcome.answer;
    match answer {
        Answer::Refused(_) => wire::part(d, 0, 0),
        Answer::Kept => wire::part(d, 0, 0),
        Answer::Repeat => wire::part(d, 0, 0),
        Answer::Delivered(place, n) => match place {
            PayloadAt::InDatagram(at) => wire::part(d, at, n),
            PayloadAt::InStore(at) => wire::part(store, at, n),
        },
    }
}
