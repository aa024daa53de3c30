// The line that says what a receiver answers to a datagram: `replay` and `replay_log` share it.
#![tactic(auto)]

ghost use Rattle.output.specs.Output.{Adds};
ghost use Rattle.steps.specs.Answers.{answer_told};
ghost use Rattle.replay_lines.specs.Lines.{answer_text, emptied_text, line};

use output::Output;
use steps::{Answer, Emptied};

fn pour_answer(out: &mut Output, answer: Answer)
    ensures { Adds out.old (answer_text (answer_told answer)) out.new }
{
    match answer {
        Answer::Refused(refusal) => out.pour_counted(b" refused ", u64::from(refusal.number())),
        Answer::Kept => out.pour(b" kept"),
        Answer::Repeat => out.pour(b" repeat"),
        Answer::Delivered(_, len) => out.pour_counted(b" delivered ", len as u64),
    }
}

// An emptied key ends its line, sender and sequence in decimal.
fn pour_emptied(out: &mut Output, emptied: Emptied)
    ensures { Adds out.old (emptied_text emptied) out.new }
{
    match emptied {
        Emptied::Nobody => out.pour(b"\n"),
        Emptied::Was(key) => {
            out.pour_counted(b" emptied ", key.sender);
            out.pour_counted_line(b" ", key.sequence);
        }
    }
}

// Line n.
pub fn pour_line(out: &mut Output, n: u64, answer: Answer, emptied: Emptied)
    ensures { Adds out.old (line n (answer_told answer) emptied) out.new }
{
    out.pour_decimal(n);
    pour_answer(out, answer);
    pour_emptied(out, emptied);
}
