// What is decided about a datagram before anything is written: refusal 9, the reader's refusals, and steps 1 to 4 of the step list. All that is
// lent is shared.
#![tactic(auto)]

ghost use Rattle.std.specs.Prelude.{◌≡◌, false, ◌<◌, length, get_or};
ghost use Rattle.datagram.specs.Said.{says, fragment_in};
ghost use Rattle.datagram.specs.Read.{Good};
ghost use Rattle.steps.specs.Limits.{slot_count, ledger_length};
ghost use Rattle.steps.specs.Slots.{slot_at};
ghost use Rattle.steps.specs.Receive.{same_fragment_lem, step3};
ghost use Rattle.steps.specs.Receive as steps;
ghost use Rattle.receiver_state.specs.View.{room_word, view, slots_of};
ghost use Rattle.receiver_state.specs.Inside.{Ready, Told};
ghost use Rattle.verdict.specs.Decided.{verdict_told, with_header, decided};
ghost use Rattle.verdict.specs.Inside.{small_verdict};

use datagram::Header;
use refusals::Refusal;

// What is to be done, with the header that was read.
#[derive(Clone, Copy, Debug, PartialEq, Eq)]
pub enum Verdict {
    Refuse(Refusal),
    // a repeat
    Again,
    // a small message, delivered from the datagram
    Deliver(Header),
    // the fragment goes into that open slot
    Join(usize, Header),
    // the fragment opens a slot
    Begin(Header),
}

// The fragment is the one that slot s holds under its number: offset, length, data and, for number 0, name.
fn same_fragment(
    state: &[u64],
    names: &[u8],
    store: &[u8],
    ledger: &[u32],
    s: usize,
    h: Header,
    d: &[u8],
) -> bool
    requires { (s < slot_count) × Ready state.now names.now × Told d.now h }
    ensures { result ≡ same_fragment_lem (get_or state.now room_word 0) store.now ledger.now s
        (slot_at (slots_of state.now names.now) s) (fragment_in d.now h) }
{
    let k = words::as_size(h.number);
    let offset = words::as_size(h.offset);
    let row = receiver_state::SLOT_LEDGER * s + 2 * k;
    let bytes = datagram::part_at(d, h.payload);
    if words::entry(ledger, row) != offset {
        return false;
    }
    if words::entry(ledger, row + 1) != bytes.len() {
        return false;
    }
    let room = words::word(state, receiver_state::SLOT_SIZE);
    if !wire::same_at(store, s * room as usize + offset, bytes) {
        return false;
    }
    if k != 0 {
        return true;
    }
    let name = slots::zero_filled(datagram::part_at(d, h.name));
    wire::same_at(names, datagram::MAX_NAME * s, &name)
}

// Step 3: the key is open in slot s.
fn at_open(
    state: &[u64],
    names: &[u8],
    store: &[u8],
    ledger: &[u32],
    s: usize,
    h: Header,
    d: &[u8],
) -> Verdict
    requires { (s < slot_count) × Ready state.now names.now × Told d.now h × (length ledger.now ≡ ledger_length) × (h.small ≡ false) }
    ensures { verdict_told result ≡ with_header h (step3 (get_or state.now room_word 0) store.now ledger.now s
        (slot_at (slots_of state.now names.now) s) (fragment_in d.now h)) }
{
    if slots::word_of(state, s, slots::SIZE) != words::as_word(h.size) {
        return Verdict::Refuse(Refusal::Disagrees);
    }
    if slots::word_of(state, s, slots::COUNT) != words::as_word(h.count) {
        return Verdict::Refuse(Refusal::Disagrees);
    }
    let a = slots::HEAD + slots::BLOCK * s + slots::HELD;
    let e = a + slots::HELD_WORDS;
    let held = &state[a..e];
    if held_bits::is_held(held, words::as_size(h.number)) {
        if same_fragment(state, names, store, ledger, s, h, d) {
            return Verdict::Again;
        }
        return Verdict::Refuse(Refusal::Disagrees);
    }
    let from = receiver_state::SLOT_LEDGER * s;
    let to = from + receiver_state::SLOT_LEDGER;
    let p = h.payload;
    if fragment_fit::fits_all(
        held,
        &ledger[from..to],
        h.count,
        h.number,
        h.offset,
        p.len as u32,
    ) {
        return Verdict::Join(s, h);
    }
    Verdict::Refuse(Refusal::Disagrees)
}

// Step 2: a small message is delivered where its key is not open.
fn at_small(found: Option<usize>, h: Header) -> Verdict
    ensures { verdict_told result ≡ small_verdict h found }
{
    match found {
        Some(_) => Verdict::Refuse(Refusal::Disagrees),
        None => Verdict::Deliver(h),
    }
}

// Steps 1 to 4 for a datagram of good form.
fn by_key(
    state: &[u64],
    names: &[u8],
    store: &[u8],
    ledger: &[u32],
    sender: u64,
    h: Header,
    d: &[u8],
) -> Verdict
    requires { Ready state.now names.now × Told d.now h × (length ledger.now ≡ ledger_length) }
    ensures { verdict_told result ≡ with_header h (steps.decide (view state.now names.now) store.now ledger.now sender (says d.now (Good h))) }
{
    let sequence = words::as_word(h.sequence);
    if memory::is_remembered(&state[receiver_state::MEMORY..], sender, sequence) {
        return Verdict::Again;
    }
    let found = slots::find_open(state, sender, sequence);
    if h.small {
        return at_small(found, h);
    }
    let Some(s) = found else {
        return Verdict::Begin(h);
    };
    at_open(state, names, store, ledger, s, h, d)
}

// THE VERDICT on a datagram of that sender.
pub fn decide(
    state: &[u64],
    names: &[u8],
    store: &[u8],
    ledger: &[u32],
    sender: u64,
    d: &[u8],
) -> Verdict
    ensures { verdict_told result ≡ decided state.now names.now store.now ledger.now sender d.now }
{
    if !receiver_state::is_ready(state, names, store.len(), ledger.len()) {
        return Verdict::Refuse(Refusal::WrongMemory);
    }
    let room = words::word(state, receiver_state::SLOT_SIZE);
    let read = datagram::read_datagram(d, room as usize, datagram::MAX_FRAGMENTS);
    let Ok(h) = read else {
        return Verdict::Refuse(read.unwrap_err());
    };
    by_key(state, names, store, ledger, sender, h, d)
}
