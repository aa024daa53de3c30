// The sequence watch in lent lists: how many senders it has and the senders, and the last number of each.
ghost use Rattle.std.specs.Prelude.{◌≡◌, ◌≤◌, length};
ghost use Rattle.wire.specs.Overlay.{overlay};
ghost use Rattle.watch.specs.Limits.{max_senders};
ghost use Rattle.host_flight.specs.Watches.{SeeTold};

use refusals::Refusal;
use watch::Watch;

// How many numbers hold the senders: how many there are, and each.
pub const WATCH: usize = 1 + watch::SENDERS;

// The numbers of src, one by one, at the start of a list.
// Kept: a loop, since behind `copy_from_slice` the compiler moves whole watches from call to call by memcpy, which C would have to bring, in twice the instructions.
fn put_each<T: Copy>(out: &mut [T], src: &[T])
    requires { length src.now ≤ length out.old }
    ensures { out.new ≡ overlay out.old 0 src.now }
{
    for i in 0..src.len() {
        out[i] = src[i];
    }
}

// The watch of these senders and last numbers, of which so many are in use.
fn shown(count: u64, senders: &[u64], lasts: &[u32]) -> Watch
    requires { (length senders.now ≡ max_senders) × (length lasts.now ≡ max_senders) }
    ensures { result ≡ record { senders = senders.entry.now; lasts = lasts.now; count = count } }
{
    let mut s = [0u64; watch::SENDERS];
    let mut l = [0u32; watch::SENDERS];
    put_each(&mut s, senders);
    put_each(&mut l, lasts);
    Watch {
        senders: s,
        lasts: l,
        count: count as usize,
    }
}

// Asks what a sender's number says, and moves the watch where the answer does.
#[unsafe(no_mangle)]
pub extern "C" fn qm_watch_see(
    senders: &mut [u64],
    lasts: &mut [u32],
    sender: u64,
    number: u32,
) -> u64
    ensures { SeeTold senders.old lasts.old sender number result senders.new lasts.new }
{
    if senders.len() < WATCH {
        return Refusal::NoRoom.number() as u64;
    }
    if lasts.len() < watch::SENDERS {
        return Refusal::NoRoom.number() as u64;
    }
    let before = shown(
        words::word(&*senders, 0),
        &senders[1..WATCH],
        &lasts[0..watch::SENDERS],
    );
    let seen = watch::see(before, sender, number);
    let answer = seen.answer;
    let after = seen.watch;
    words::put_word(&mut *senders, 0, after.count as u64);
    words::put_words(senders, 1, &after.senders);
    words::put_words(lasts, 0, &after.lasts);
    answer.code()
}
