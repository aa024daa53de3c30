// Receiving, as the van's C host calls it: state, names, store and ledger are lent, and an outcome goes to a lent list of numbers and lent bytes.
#![tactic(auto)]

ghost use Rattle.std.specs.Prelude.{◌≡◌};
ghost use Rattle.steps.specs.Answers.{answer_told};
ghost use Rattle.receiver.specs.Lent.{lent_before, lent_after};
ghost use Rattle.wire.specs.Slices.{buffer};
ghost use Rattle.datagram.specs.Read.{sequence_in};
ghost use Rattle.host_receiver.specs.Outcomes.{place_numbers_lem, answer_numbers_lem, later_numbers_lem, Tells};
ghost use Rattle.host_receiver.specs.Inside.{Writes};
ghost use Rattle.host_receiver.specs.Calls.{lacking, ReceiveTold, WithinTold};

use flight_log::Limits;
use receiver::Outcome;
use refusals::Refusal;
use steps::{Answer, Emptied, PayloadAt};

// A delivered message: where its payload is, and how long.
fn place_numbers(place: PayloadAt, len: usize) -> [u64; host_state::ANSWERED]
    ensures { result ≡ place_numbers_lem place len }
{
    match place {
        PayloadAt::InDatagram(at) => [3, 1, at as u64, len as u64],
        PayloadAt::InStore(at) => [3, 2, at as u64, len as u64],
    }
}

fn answer_numbers(answer: Answer) -> [u64; host_state::ANSWERED]
    ensures { result ≡ answer_numbers_lem (answer_told answer) }
{
    match answer {
        Answer::Refused(_) => [0, 0, 0, 0],
        Answer::Kept => [1, 0, 0, 0],
        Answer::Repeat => [2, 0, 0, 0],
        Answer::Delivered(place, len) => place_numbers(place, len),
    }
}

fn later_numbers(emptied: Emptied, sequence: u64) -> [u64; host_state::LATER]
    ensures { result ≡ later_numbers_lem emptied sequence }
{
    match emptied {
        Emptied::Nobody => [0, 0, 0, sequence],
        Emptied::Was(key) => [1, key.sender, key.sequence, sequence],
    }
}

// The outcome's numbers and name. The sequence stands at the same place in both forms of a datagram.
fn put_outcome(told: &mut [u64], name: &mut [u8], datagram: &[u8], outcome: Outcome) -> u32
    ensures { Writes (sequence_in datagram.now) outcome (buffer told) (buffer name) result }
{
    let sequence = wire::number(datagram, 4, 4);
    let answer = outcome.answer;
    let emptied = outcome.emptied;
    let given = outcome.name;
    let first = answer_numbers(answer);
    let second = later_numbers(emptied, sequence);
    words::put_words(&mut *told, 0, &first);
    words::put_words(told, host_state::ANSWERED, &second);
    wire::put_bytes(name, 0, &given);
    0
}

// Of a refusal its number is told, and nothing written.
fn tell(told: &mut [u64], name: &mut [u8], datagram: &[u8], outcome: Outcome) -> u32
    ensures { Tells (sequence_in datagram.now) outcome (buffer told) (buffer name) result }
{
    let answer = outcome.answer;
    match answer {
        Answer::Refused(refusal) => refusal.number(),
        Answer::Kept => put_outcome(told, name, datagram, outcome),
        Answer::Repeat => put_outcome(told, name, datagram, outcome),
        Answer::Delivered(_, _) => put_outcome(told, name, datagram, outcome),
    }
}

// What is lent for an outcome has no room for it.
fn no_room(told: &[u64], name: &[u8]) -> bool
    ensures { result ≡ lacking told.now name.now }
{
    if told.len() < host_state::OUTCOME {
        return true;
    }
    name.len() < datagram::MAX_NAME
}

// What is done with a datagram of that sender: 0 and the outcome, or the number of the refusal and nothing written.
#[unsafe(no_mangle)]
pub extern "C" fn qm_receive(
    state: &mut [u64],
    names: &mut [u8],
    store: &mut [u8],
    ledger: &mut [u32],
    sender: u64,
    datagram: &[u8],
    told: &mut [u64],
    name: &mut [u8],
) -> u32
    ensures { ReceiveTold (lent_before state names store ledger) sender datagram.now (buffer told) (buffer name) result (lent_after state names store ledger) }
{
    if no_room(&*told, &*name) {
        return Refusal::NoRoom.number();
    }
    let outcome = receiver::receive(state, names, store, ledger, sender, datagram);
    tell(told, name, datagram, outcome)
}

// The same with a datagram out of a log, whose limits bind beside the receiver's: its largest payload and its most fragments.
#[unsafe(no_mangle)]
pub extern "C" fn qm_receive_within(
    state: &mut [u64],
    names: &mut [u8],
    store: &mut [u8],
    ledger: &mut [u32],
    payload: usize,
    fragments: u32,
    sender: u64,
    datagram: &[u8],
    told: &mut [u64],
    name: &mut [u8],
) -> u32
    ensures { WithinTold (record { payload = payload; fragments = fragments }) (lent_before state names store ledger) sender datagram.now
        (buffer told) (buffer name) result (lent_after state names store ledger) }
{
    if no_room(&*told, &*name) {
        return Refusal::NoRoom.number();
    }
    let limits = Limits { payload, fragments };
    let outcome = within_limits::receive_within(
        state, names, store, ledger, limits, sender, datagram,
    );
    tell(told, name, datagram, outcome)
}
