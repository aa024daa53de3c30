// The sequence watch. A case is: how many senders the watch claims, of 1 to 16 in order; the last number of the first; the sender and the number;
// and how far the last number of each lies above that of the one before it, 0 where the case does not say.
use differences::Answer;
use output::Output;
use watch::Watch;

// The low 32 bits of a number of a case.
fn word(case: &[u8], place: usize) -> u32 {
    (wire::number(case, place, 8) % 4294967296) as u32
}

// The last numbers of all senders.
fn lasts_from(first: u32, step: u32) -> [u32; watch::SENDERS] {
    let mut lasts = [first; watch::SENDERS];
    for i in 1..watch::SENDERS {
        lasts[i] = lasts[i - 1].wrapping_add(step);
    }
    lasts
}

pub(crate) fn seen(out: &mut Output, case: &[u8]) {
    let w = Watch {
        senders: [1, 2, 3, 4, 5, 6, 7, 8, 9, 10, 11, 12, 13, 14, 15, 16],
        lasts: lasts_from(word(case, 8), word(case, 32)),
        count: crate::number(case, 0),
    };
    match watch::ask(w, wire::number(case, 16, 8), word(case, 24)) {
        Answer::First => out.pour(b"first"),
        Answer::Forward(n) => out.pour_counted(b"forward ", u64::from(n)),
        Answer::Same => out.pour(b"same"),
        Answer::Late(n) => out.pour_counted(b"late ", u64::from(n)),
        Answer::Restarted(n) => out.pour_counted(b"restarted ", u64::from(n)),
        Answer::Refused(refusal) => crate::pour_refused(out, refusal),
    }
}
