// The receiver: fragments of messages joined in a lent store, by the step list of the crate `steps`. The crate `verdict` says what is to be done
// with a datagram; here it is done. The state is lent too: words for the slots and the memory of keys, and bytes for each slot's name.
#![tactic(auto)]

ghost use Rattle.std.specs.Prelude.{◌≡◌, true, List, ℕ, ◌+◌, ◌<◌, ◌≤◌, length, replicate};
ghost use Rattle.wire.specs.Overlay.{overlay};
ghost use Rattle.wire.specs.Slices.{buffer};
ghost use Rattle.datagram.specs.Limits.{max_name, max_payload};
ghost use Rattle.datagram.specs.Said.{fragment_in};
ghost use Rattle.steps.specs.Limits.{slot_count};
ghost use Rattle.steps.specs.Memory.{key_of};
ghost use Rattle.steps.specs.Slots.{no_name_lem};
ghost use Rattle.slots.specs.Words.{block_words};
ghost use Rattle.receiver_state.specs.View.{state_words_lem};
ghost use Rattle.receiver_state.specs.Inside.{Shaped, Ready, Told, named_in, Remembers};
ghost use Rattle.verdict.specs.Decided.{verdict_told};
ghost use Rattle.verdict.specs.Inside.{Possible};
ghost use Rattle.receiver.specs.Lent.{lent_before, lent_after};
ghost use Rattle.receiver.specs.Calls.{Receives, Forgets};
ghost use Rattle.receiver.specs.Inside.{stayed, Releases, ReleasesOne, ReleasesAll, Occupies, Keeps, Delivers, SmallDone, Puts, Seats};
ghost use Rattle.receiver.specs.Inside.{Begins, Plans, Able, Settles, Storable, StoredIn, StoredBy};

use datagram::Header;
use refusals::Refusal;
use steps::{Answer, Emptied, Key, PayloadAt};
use verdict::Verdict;

// The words of a state, the bytes of its names, and the numbers of a ledger.
pub const STATE_WORDS: usize = receiver_state::STATE_WORDS;

pub const NAME_BYTES: usize = receiver_state::NAME_BYTES;

pub const LEDGER: usize = receiver_state::LEDGER;

// What is answered to a datagram: the answer, the key of the slot that was emptied for it, and for Delivered the name, with zeros after it.
#[derive(Clone, Copy)]
pub struct Outcome {
    pub answer: Answer,
    pub emptied: Emptied,
    pub name: [u8; datagram::MAX_NAME],
}

// The slot to take, which is free now, and the key that was emptied for it.
#[derive(Clone, Copy)]
struct Seat {
    at: usize,
    emptied: Emptied,
}

// What is to be done once a slot is open: a fragment is held in one place of the code, whether it joins a message or begins one.
#[derive(Clone, Copy)]
enum Plan {
    Refuse(Refusal),
    Again,
    Deliver(Header),
    // the header first, as in Deliver: it then lies at one place in both
    Hold(Header, Seat),
}

// ---- what changes in the state

// The words of a slot, from a place on, are zeros.
fn clear_block(state: &mut [u64], b: usize)
    requires { b + block_words ≤ length state.old }
    ensures { state.new ≡ overlay state.old b (replicate block_words 0) }
{
    state[b..b + slots::BLOCK].fill(0);
}

// The bytes of a name, from a place on, are zeros.
fn clear_name(names: &mut [u8], a: usize)
    requires { a + max_name ≤ length names.old }
    ensures { names.new ≡ overlay names.old a no_name_lem }
{
    names[a..a + datagram::MAX_NAME].fill(0);
}

// Slot s is freed: all zeros, and the turns of those opened after it fall by one.
fn release(state: &mut [u64], names: &mut [u8], s: usize)
    requires { (s < slot_count) × Shaped state.old names.old }
    ensures { Releases state.old names.old s state.new names.new }
{
    let t = slots::word_of(&*state, s, slots::TURN);
    clear_block(&mut *state, slots::HEAD + slots::BLOCK * s);
    clear_name(names, datagram::MAX_NAME * s);
    slot_turns::lower(state, t);
}

// A message is opened in slot s, the last of the open ones, with no fragment yet.
fn occupy(state: &mut [u64], names: &mut [u8], s: usize, sender: u64, h: Header)
    requires { (s < slot_count) × Shaped state.old names.old }
    ensures { Occupies state.old names.old s sender h state.new names.new }
{
    let mut block = [0; slots::BLOCK];
    block[slots::SENDER] = sender;
    block[slots::SEQUENCE] = words::as_word(h.sequence);
    block[slots::SIZE] = words::as_word(h.size);
    block[slots::COUNT] = words::as_word(h.count);
    block[slots::TURN] = slots::open_count(&*state);
    words::put_words(state, slots::HEAD + slots::BLOCK * s, &block);
    wire::put_bytes(names, datagram::MAX_NAME * s, &[0; datagram::MAX_NAME]);
}

// Fragment 0 brings its name into slot s.
fn put_name(names: &mut [u8], s: usize, h: Header, d: &[u8])
    requires { (s < slot_count) × Told d.now h }
    ensures { names.new ≡ named_in names.old s h d.now }
{
    if h.number != 0 {
        return;
    }
    let name = slots::zero_filled(datagram::part_at(d, h.name));
    wire::put_bytes(names, datagram::MAX_NAME * s, &name);
}

// Slot s holds the fragment.
fn keep(state: &mut [u64], names: &mut [u8], s: usize, h: Header, d: &[u8])
    requires { (s < slot_count) × Shaped state.old names.old × Told d.now h }
    ensures { Keeps state.old names.old s h d.now state.new names.new }
{
    let a = slots::HEAD + slots::BLOCK * s + slots::HELD;
    let e = a + slots::HELD_WORDS;
    held_bits::hold_fragment(&mut state[a..e], words::as_size(h.number));
    put_name(names, s, h, d);
}

// The key is remembered.
fn remember_key(state: &mut [u64], sender: u64, sequence: u64)
    requires { length state.old ≡ state_words_lem }
    ensures { Remembers state.old (key_of sender sequence) state.new }
{
    memory::remember(&mut state[receiver_state::MEMORY..], sender, sequence);
}

// ---- what is answered

fn no_name() -> [u8; datagram::MAX_NAME]
    ensures { result ≡ no_name_lem }
{
    [0; datagram::MAX_NAME]
}

// Nothing is altered.
fn stay(answer: Answer) -> Outcome
    ensures { result ≡ stayed answer }
{
    Outcome {
        answer,
        emptied: Emptied::Nobody,
        name: no_name(),
    }
}

// The whole message in slot s is handed over: its key is remembered and the slot freed.
fn deliver(state: &mut [u64], names: &mut [u8], s: usize, gone: Emptied) -> Outcome
    requires { (s < slot_count) × Ready state.old names.old }
    ensures { Delivers state.old names.old s gone result state.new names.new }
{
    let sender = slots::word_of(&*state, s, slots::SENDER);
    let sequence = slots::word_of(&*state, s, slots::SEQUENCE);
    let size = slots::word_of(&*state, s, slots::SIZE);
    let room = words::word(&*state, receiver_state::SLOT_SIZE);
    let at = s * room as usize;
    let name = slots::zero_filled(wire::part(&*names, datagram::MAX_NAME * s, datagram::MAX_NAME));
    remember_key(&mut *state, sender, sequence);
    release(state, names, s);
    Outcome {
        answer: Answer::Delivered(PayloadAt::InStore(at), size as usize),
        emptied: gone,
        name,
    }
}

// ---- what is done

// Step 5, but for the store and the ledger: the fragment is held in slot s, which is open.
fn put(state: &mut [u64], names: &mut [u8], s: usize, h: Header, d: &[u8], gone: Emptied) -> Outcome
    requires { (s < slot_count) × Ready state.old names.old × Told d.now h }
    ensures { Puts (buffer state) (buffer names) s gone h d.now result }
{
    keep(&mut *state, &mut *names, s, h, d);
    let a = slots::HEAD + slots::BLOCK * s + slots::HELD;
    let e = a + slots::HELD_WORDS;
    let n = slots::word_of(&*state, s, slots::COUNT);
    if held_bits::all_held(&state[a..e], n as usize) {
        return deliver(state, names, s, gone);
    }
    Outcome {
        answer: Answer::Kept,
        emptied: gone,
        name: no_name(),
    }
}

// The lowest free slot. With none free, the slot that was opened longest ago is emptied first.
fn take_seat(state: &mut [u64], names: &mut [u8]) -> Seat
    requires { Shaped state.old names.old }
    ensures { Seats state.old names.old result state.new names.new }
{
    let Some(free) = slots::lowest_free(&*state) else {
        let s = slot_turns::oldest(&*state);
        let sender = slots::word_of(&*state, s, slots::SENDER);
        let sequence = slots::word_of(&*state, s, slots::SEQUENCE);
        release(state, names, s);
        return Seat {
            at: s,
            emptied: Emptied::Was(Key { sender, sequence }),
        };
    };
    Seat {
        at: free,
        emptied: Emptied::Nobody,
    }
}

// Step 4: a slot is taken, and the message opened there.
fn begin(state: &mut [u64], names: &mut [u8], sender: u64, h: Header) -> Seat
    requires { Shaped state.old names.old }
    ensures { Begins state.old names.old sender h result state.new names.new }
{
    let seat = take_seat(&mut *state, &mut *names);
    occupy(state, names, seat.at, sender, h);
    seat
}

// The verdict as a plan: a message that begins has its slot then.
fn plan_for(state: &mut [u64], names: &mut [u8], sender: u64, verdict: Verdict) -> Plan
    requires { (d : List ℕ) × Possible state.old names.old d (verdict_told verdict) }
    ensures { Plans state.old names.old sender verdict result state.new names.new }
{
    match verdict {
        Verdict::Refuse(refusal) => Plan::Refuse(refusal),
        Verdict::Again => Plan::Again,
        Verdict::Deliver(h) => Plan::Deliver(h),
        Verdict::Join(s, h) => Plan::Hold(
            h,
            Seat {
                at: s,
                emptied: Emptied::Nobody,
            },
        ),
        Verdict::Begin(h) => Plan::Hold(h, begin(state, names, sender, h)),
    }
}

// A small message is delivered from the datagram.
fn small(state: &mut [u64], sender: u64, h: Header, d: &[u8]) -> Outcome
    requires { (length state.old ≡ state_words_lem) × Told d.now h × (h.small ≡ true) }
    ensures { SmallDone state.old sender d.now h result state.new }
{
    let p = h.payload;
    let name = slots::zero_filled(datagram::part_at(d, h.name));
    remember_key(state, sender, words::as_word(h.sequence));
    Outcome {
        answer: Answer::Delivered(PayloadAt::InDatagram(p.at), p.len),
        emptied: Emptied::Nobody,
        name,
    }
}

// The plan is carried out, but for the store and the ledger.
fn settle(state: &mut [u64], names: &mut [u8], sender: u64, plan: Plan, d: &[u8]) -> Outcome
    requires { Able state.old names.old d.now plan }
    ensures { Settles state.old names.old sender plan d.now result state.new names.new }
{
    match plan {
        Plan::Refuse(refusal) => stay(Answer::Refused(refusal)),
        Plan::Again => stay(Answer::Repeat),
        Plan::Deliver(h) => small(state, sender, h, d),
        Plan::Hold(h, seat) => put(state, names, seat.at, h, d, seat.emptied),
    }
}

// The fragment's own bytes in the store and its two ledger numbers.
fn put_fragment(store: &mut [u8], ledger: &mut [u32], room: usize, s: usize, h: Header, d: &[u8])
    requires { (s < slot_count) × (room ≤ max_payload) × Told d.now h }
    ensures { StoredIn room store.old ledger.old s (fragment_in d.now h) store.new ledger.new }
{
    let k = words::as_size(h.number);
    let at = s * room + words::as_size(h.offset);
    let row = receiver_state::SLOT_LEDGER * s + 2 * k;
    let p = h.payload;
    wire::put_bytes(store, at, datagram::part_at(d, h.payload));
    words::put_word(&mut *ledger, row, h.offset);
    words::put_word(ledger, row + 1, p.len as u32);
}

fn store_in(store: &mut [u8], ledger: &mut [u32], room: u64, plan: Plan, d: &[u8])
    requires { Storable room d.now plan }
    ensures { StoredBy room store.old ledger.old plan d.now store.new ledger.new }
{
    match plan {
        Plan::Refuse(_) | Plan::Again | Plan::Deliver(_) => {}
        Plan::Hold(h, seat) => put_fragment(store, ledger, room as usize, seat.at, h, d),
    }
}

// THE CALL: what is done with a datagram of that sender.
pub fn receive(
    state: &mut [u64],
    names: &mut [u8],
    store: &mut [u8],
    ledger: &mut [u32],
    sender: u64,
    d: &[u8],
) -> Outcome
    ensures { Receives (lent_before state names store ledger) sender d.now result (lent_after state names store ledger) }
{
    let room = words::word(&*state, receiver_state::SLOT_SIZE);
    let verdict = verdict::decide(&*state, &*names, &*store, &*ledger, sender, d);
    let plan = plan_for(&mut *state, &mut *names, sender, verdict);
    store_in(store, ledger, room, plan, d);
    settle(state, names, sender, plan, d)
}

// ---- forgetting

// Slot i is freed where it is open for the sender.
fn release_one(state: &mut [u64], names: &mut [u8], i: usize, sender: u64)
    requires { (i < slot_count) × Shaped state.old names.old }
    ensures { ReleasesOne state.old names.old sender i state.new names.new }
{
    if slots::word_of(&*state, i, slots::COUNT) == 0 {
        return;
    }
    if slots::word_of(&*state, i, slots::SENDER) != sender {
        return;
    }
    release(state, names, i);
}

fn release_all(state: &mut [u64], names: &mut [u8], sender: u64)
    requires { Shaped state.old names.old }
    ensures { ReleasesAll state.old names.old sender slot_count state.new names.new }
{
    for i in 0..slots::SLOTS {
        release_one(&mut *state, &mut *names, i, sender);
    }
}

// The sender's slots are freed and its remembered keys dropped.
pub fn forget(state: &mut [u64], names: &mut [u8], sender: u64) -> Result<(), Refusal>
    ensures { Forgets state.old names.old sender result state.new names.new }
{
    if state.len() != STATE_WORDS {
        return Err(Refusal::WrongMemory);
    }
    if names.len() != NAME_BYTES {
        return Err(Refusal::WrongMemory);
    }
    if !memory_places::in_order(&state[receiver_state::MEMORY..]) {
        return Err(Refusal::WrongMemory);
    }
    release_all(&mut *state, &mut *names, sender);
    memory_places::forget(&mut state[receiver_state::MEMORY..], sender);
    Ok(())
}
