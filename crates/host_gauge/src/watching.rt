// The gauge's watch in four lent words: whether a session was heard, the number of its last message, and the session's ten bytes as numbers of eight and of two.
ghost use Rattle.std.specs.Prelude.{◌≡◌};
ghost use Rattle.wire.specs.Slices.{buffer};
ghost use Rattle.gauge_watch.specs.Heard.{said};
ghost use Rattle.host_gauge.specs.Watches.{gauge_in, gauge_words_lem, SeeTold};
ghost use Rattle.host_gauge.specs.Inside.{heard};

use gauge_watch::{Gauge, Session};
use refusals::Refusal;

// How many words hold the gauge.
pub const GAUGE: usize = 4;

// The gauge that words show. Where no session was heard it has none, whatever the other words are.
fn shown(w: &[u64]) -> Gauge
    ensures { said result ≡ heard (gauge_in w.now) }
{
    if words::word(w, 0) != 1 {
        return Gauge { session: None };
    }
    let mut name = [0u8; moss::SESSION];
    wire::put_number(&mut name, 0, 8, words::word(w, 2));
    wire::put_number(&mut name, 8, 2, words::word(w, 3));
    let last = words::word(w, 1) % 4294967296;
    let session = Session {
        name,
        last: last as u32,
    };
    Gauge {
        session: Some(session),
    }
}

// The words of a gauge.
fn gauge_words(g: Gauge) -> [u64; GAUGE]
    ensures { result ≡ gauge_words_lem (said g) }
{
    let Some(session) = g.session else {
        return [0; GAUGE];
    };
    let first = wire::number(&session.name, 0, 8);
    let second = wire::number(&session.name, 8, 2);
    [1, session.last as u64, first, second]
}

// What the watch says of a packet; the gauge is written where the watch moves.
#[unsafe(no_mangle)]
pub extern "C" fn qm_gauge_see(gauge: &mut [u64], packet: &[u8]) -> u64
    ensures { SeeTold (buffer gauge) packet.now result }
{
    if gauge.len() < GAUGE {
        return Refusal::NoRoom.number() as u64;
    }
    let heard = gauge_watch::see_packet(shown(&*gauge), packet);
    if heard.answer.does_move() {
        let numbers = gauge_words(heard.gauge);
        words::put_words(gauge, 0, &numbers);
    }
    heard.answer.code()
}
