// Replays standard input: a line a datagram, then `end` or `cut` and the count.
#![tactic(auto)]

fn main(rt: HostRuntime) {
    let mut buf = [0u8; replay_run::HOLDS];
    replay_run::run(rt.stdin(), rt.stdout(), &mut buf);
}
