// A stretch of a log, counted on from a place: its datagrams through the lent receiver, and the PitLists that are delivered into the lent sets.
#![tactic(auto)]

ghost use Rattle.std.specs.Prelude.{◌≡◌, ℕ, ◌+◌, ◌<◌, ◌^◌, get_or};
ghost use Rattle.refusals.specs.Numbers.{number_of};
ghost use Rattle.steps.specs.Answers.{answer_told};
ghost use Rattle.flight_log.specs.Said.{entry_said};
ghost use Rattle.receiver.specs.Lent.{lent_before, lent_after};
ghost use Rattle.pit_marks.specs.Sets.{held_in};
ghost use Rattle.pit_marks.specs.Told.{sets_in, SameWords};
ghost use Rattle.pit_payloads.specs.Looks.{book};
ghost use Rattle.stretch.specs.Stretch.{desk, CountsOn};
ghost use Rattle.stretch.specs.Told.{stretch_told};
ghost use Rattle.stretch.specs.InsideTold.{fault_told};
ghost use Rattle.stretch.specs.Inside.{Few, one_more_lem, told_of, ran, no_totals, TakesPayload, TakesEntry};

use flight_log::{EntryAt, Limits};
use pit_marks::{PitSets, Sizes};
use refusals::Refusal;
use steps::Answer;

// The receiver's numbers of refusal are below this.
pub const REFUSALS: usize = 10;

// Why it stopped: as many entries were taken as were asked for, or the log ended, or the log's own refusal, or what stands against a list by what is lent.
#[derive(Clone, Copy, Debug, PartialEq, Eq)]
pub enum Stop {
    Taken,
    End,
    Broken(Refusal),
    Refused(Refusal),
}

// The answers of a stretch (refused[k]: by number k), and the lists entered.
#[derive(Clone, Copy)]
pub struct Totals {
    pub kept: u64,
    pub repeated: u64,
    pub delivered: u64,
    pub refused: [u64; REFUSALS],
    pub lists: u64,
}

// Why and where it stopped, how many entries were taken, their answers, and how many numbers the sets have now.
#[derive(Clone, Copy)]
pub struct Stretch {
    pub stop: Stop,
    pub place: usize,
    pub entries: u64,
    pub totals: Totals,
    pub sizes: Sizes,
}

// ---- the totals

fn nothing() -> Totals
    ensures { result ≡ no_totals }
{
    Totals {
        kept: 0,
        repeated: 0,
        delivered: 0,
        refused: [0u64; REFUSALS],
        lists: 0,
    }
}

// One refusal more, by its number.
fn one_refused(by: &mut [u64; REFUSALS], refusal: Refusal)
    requires { (k : ℕ) → get_or by.old k 0 + 1 < 2 ^ 64 }
    ensures { by.new ≡ one_more_lem by.old (number_of refusal) }
{
    let k = refusal.number() as usize;
    if k < REFUSALS {
        by[k] += 1;
    }
}

// One answer more.
fn told(totals: &mut Totals, answer: Answer)
    requires { Few totals.old }
    ensures { totals.new ≡ told_of totals.old (answer_told answer) }
{
    match answer {
        Answer::Kept => totals.kept += 1,
        Answer::Repeat => totals.repeated += 1,
        Answer::Delivered(_, _) => totals.delivered += 1,
        Answer::Refused(refusal) => one_refused(&mut totals.refused, refusal),
    }
}

// ---- one entry

// One payload more.
fn one_payload(
    payload: &[u8],
    numbers: &mut [i64],
    sets: &mut PitSets,
    totals: &mut Totals,
) -> Result<(), Refusal>
    requires { totals.old.lists + 1 < 2 ^ 64 }
    ensures same { SameWords sets.old sets.new }
    ensures takes { TakesPayload payload.now (book numbers.old (sets_in sets.old)) totals.old sets.old.sizes (ran (fault_told result) totals.new sets.new.sizes) (book numbers.new (sets_in sets.new)) }
{
    let is_list = pit_payloads::take_payload(payload, numbers, sets)?;
    totals.lists += u64::from(is_list);
    Ok(())
}

// One entry more: its datagram is received from its sender, within the log's limits; what is delivered is read where it lies.
fn one_entry(
    log: &[u8],
    entry: EntryAt,
    limits: Limits,
    state: &mut [u64],
    names: &mut [u8],
    store: &mut [u8],
    ledger: &mut [u32],
    numbers: &mut [i64],
    sets: &mut PitSets,
    totals: &mut Totals,
) -> Result<(), Refusal>
    requires { Few totals.old }
    ensures same { SameWords sets.old sets.new }
    ensures takes { TakesEntry limits (entry_said log.now entry) (desk (lent_before state names store ledger) (book numbers.old (sets_in sets.old))) totals.old sets.old.sizes
        (ran (fault_told result) totals.new sets.new.sizes) (desk (lent_after state names store ledger) (book numbers.new (sets_in sets.new))) }
{
    let d = wire::part(log, entry.at, entry.len);
    let outcome = within_limits::receive_within(
        state,
        names,
        &mut *store,
        ledger,
        limits,
        entry.sender,
        d,
    );
    told(&mut *totals, outcome.answer);
    let payload = open_and_payload::payload(outcome, &*store, d);
    one_payload(payload, numbers, sets, totals)
}

// ---- the stretch

// Sizes above what is lent count as what is lent.
fn held(sets: &PitSets) -> Sizes
    ensures { result ≡ held_in (sets_in sets.now) sets.now.sizes }
{
    Sizes {
        tiles: sets.sizes.tiles.min(sets.tiles.len()),
        pits: sets.sizes.pits.min(sets.pits.len()),
        sure: sets.sizes.sure.min(sets.sure.len()),
    }
}

// GOES ON through a log from a place (0: its head), by at most so many entries, within the log's limits. The receiver's four parts, the number list
// and the three sets, with how many numbers each has, are lent.
pub fn count_on(
    log: &[u8],
    place: usize,
    most: u64,
    state: &mut [u64],
    names: &mut [u8],
    store: &mut [u8],
    ledger: &mut [u32],
    numbers: &mut [i64],
    sets: &mut PitSets,
) -> Stretch
    ensures same { SameWords sets.old sets.new }
    ensures sizes { sets.new.sizes ≡ result.sizes }
    ensures counts { CountsOn log.now place most (desk (lent_before state names store ledger) (book numbers.old (sets_in sets.old))) sets.old.sizes (stretch_told result)
        (desk (lent_after state names store ledger) (book numbers.new (sets_in sets.new))) }
{
    let limits = flight_log::limits_in(log);
    let mut at = place;
    let mut totals = nothing();
    sets.sizes = held(&*sets);
    for taken in 0..most {
        let entry = match flight_log::read_on(log, at) {
            Ok(Some(entry)) => entry,
            Ok(None) => return stopped(Stop::End, at, taken, totals, sets.sizes),
            Err(e) => return stopped(Stop::Broken(e), at, taken, totals, sets.sizes),
        };
        at = entry.next;
        let entered = one_entry(
            log,
            entry,
            limits,
            &mut *state,
            &mut *names,
            &mut *store,
            &mut *ledger,
            &mut *numbers,
            &mut *sets,
            &mut totals,
        );
        if let Err(e) = entered {
            return stopped(Stop::Refused(e), at, taken + 1, totals, sets.sizes);
        }
    }
    stopped(Stop::Taken, at, most, totals, sets.sizes)
}

fn stopped(stop: Stop, place: usize, entries: u64, totals: Totals, sizes: Sizes) -> Stretch
    ensures stop { result.stop ≡ stop }
    ensures place { result.place ≡ place }
    ensures entries { result.entries ≡ entries }
    ensures totals { result.totals ≡ totals }
    ensures sizes { result.sizes ≡ sizes }
{
    Stretch {
        stop,
        place,
        entries,
        totals,
        sizes,
    }
}
