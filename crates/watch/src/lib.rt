// The sequence watch: for each of at most 16 senders the last number that moved it, in order of first number. It answers what a new
// number says about those between. The state goes in by value and comes back.
#![tactic(auto)]

ghost use Rattle.std.specs.Prelude.{◌≡◌, ◌≤◌, ◌==◌, length, position, take};
ghost use Rattle.differences.specs.Noted.{notes};
ghost use Rattle.watch.specs.Senders.{empty, place, moved};
ghost use Rattle.watch.specs.Watching.{asked, Result};

use differences::Answer;
use refusals::Refusal;

// How many senders a watch has room for.
pub const SENDERS: usize = 16;

// The first `count` places are in use: a sender, and the last number that moved its watch.
// Kept: two arrays, since qm_watch_see is lent the senders and the last numbers as two lists, and copies each as it lies.
#[derive(Clone, Copy, Debug, PartialEq, Eq)]
pub struct Watch {
    pub senders: [u64; SENDERS],
    pub lasts: [u32; SENDERS],
    pub count: usize,
}

// The answer and the watch afterwards.
#[derive(Clone, Copy, Debug, PartialEq, Eq)]
pub struct Seen {
    pub answer: Answer,
    pub watch: Watch,
}

// A watch that has seen nobody.
pub fn new() -> Watch
    ensures { result ≡ empty }
{
    Watch {
        senders: [0; SENDERS],
        lasts: [0; SENDERS],
        count: 0,
    }
}

fn position_of(senders: &[u64], sender: u64) -> Option<usize>
    ensures { result ≡ position (λ s. s == sender) senders.now }
{
    senders.iter().position(|s| *s == sender)
}

// Where a sender stands among the first `count`, or `count`.
fn find(senders: &[u64], count: usize, sender: u64) -> usize
    requires { count ≤ length senders.now }
    ensures { result ≡ place sender (take count senders.now) }
{
    position_of(&senders[..count], sender).unwrap_or(count)
}

// Asks what a sender's number says. The watch stays.
pub fn ask(w: Watch, sender: u64, number: u32) -> Answer
    ensures { notes result ≡ asked w sender number }
{
    let count = w.count;
    if SENDERS < count {
        return Answer::Refused(Refusal::TooManySenders);
    }
    let at = find(&w.senders, count, sender);
    if at < count {
        return differences::tell(
            number,
            differences::sequence_difference(number, w.lasts[at]),
        );
    }
    if at < SENDERS {
        return Answer::First;
    }
    Answer::Refused(Refusal::TooManySenders)
}

// Moves a sender's watch to a number. It asks nothing.
pub fn move_to(w: Watch, sender: u64, number: u32) -> Watch
    ensures { result ≡ moved w sender number }
{
    let count = w.count;
    if SENDERS < count {
        return w;
    }
    let at = find(&w.senders, count, sender);
    if SENDERS <= at {
        return w;
    }
    let mut next = w;
    next.senders[at] = sender;
    next.lasts[at] = number;
    if count <= at {
        next.count = at + 1;
    }
    next
}

// Asks, and moves the watch where the answer does.
pub fn see(w: Watch, sender: u64, number: u32) -> Seen
    ensures { Result w sender number result }
{
    let answer = ask(w, sender, number);
    if answer.does_move() {
        let watch = move_to(w, sender, number);
        return Seen { answer, watch };
    }
    Seen { answer, watch: w }
}
