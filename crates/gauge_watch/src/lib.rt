// The tide gauge's packets over the sequence watch: one session and one number. The watch is asked about each packet's sequence; where it
// moves, the last number becomes that of the packet's last message, so that what is missing counts messages.
#![tactic(auto)]

ghost use Rattle.std.specs.Prelude.{◌≡◌, ◌≤◌};
ghost use Rattle.differences.specs.Noted.{notes};
ghost use Rattle.moss.specs.Limits.{max_packet};
ghost use Rattle.moss.specs.Packet.{packet_of};
ghost use Rattle.moss.specs.Packet.{gives};
ghost use Rattle.moss.specs.Answers as answers;
ghost use Rattle.moss.specs.Answers.{headers_of};
ghost use Rattle.gauge_watch.specs.Heard.{silent, said, asked, last_of, Hears};

use differences::Answer;
use moss::Header;

// A session by its name, and the number of its last message.
#[derive(Clone, Copy, Debug, PartialEq, Eq)]
pub struct Session {
    pub name: [u8; moss::SESSION],
    pub last: u32,
}

// The session that goes on, if one was heard.
#[derive(Clone, Copy, Debug, PartialEq, Eq)]
pub struct Gauge {
    pub session: Option<Session>,
}

// The answer and the gauge afterwards.
#[derive(Clone, Copy, Debug, PartialEq, Eq)]
pub struct Heard {
    pub answer: Answer,
    pub gauge: Gauge,
}

// A gauge that has heard nothing.
pub fn new() -> Gauge
    ensures { said result ≡ silent }
{
    Gauge { session: None }
}

// Sequence plus count less one, wrapping.
fn last_of(sequence: u32, count: usize) -> u32
    requires { count ≤ max_packet }
    ensures { result ≡ last_of sequence count }
{
    sequence.wrapping_add(count as u32).wrapping_sub(1)
}

// What the watch says of a packet of this header.
fn ask(g: Gauge, p: &[u8], header: Header) -> Answer
    requires { gives (answers.said header) ≡ headers_of (packet_of p.now) }
    ensures { notes result ≡ asked (said g) (packet_of p.now) }
{
    let Some(session) = g.session else {
        return Answer::First;
    };
    if !wire::same_at(p, header.session, &session.name) {
        return Answer::First;
    }
    let number = header.sequence;
    differences::tell(
        number,
        differences::sequence_difference(number, session.last),
    )
}

// Asks, and moves the gauge where the watch moves.
fn see_header(g: Gauge, p: &[u8], header: Header) -> Heard
    requires { gives (answers.said header) ≡ headers_of (packet_of p.now) }
    ensures { Hears (said g) p.now result }
{
    let answer = ask(g, p, header);
    if answer.does_move() {
        let session = Session {
            name: moss::session_at(p, header.session),
            last: last_of(header.sequence, header.count),
        };
        let gauge = Gauge {
            session: Some(session),
        };
        return Heard { answer, gauge };
    }
    Heard { answer, gauge: g }
}

// What the watch says of a packet, or the reader's refusal, which leaves the gauge as it is.
pub fn see_packet(g: Gauge, p: &[u8]) -> Heard
    ensures { Hears (said g) p.now result }
{
    match moss::read_packet(p) {
        Ok(header) => see_header(g, p, header),
        Err(refusal) => Heard {
            answer: Answer::Refused(refusal),
            gauge: g,
        },
    }
}
