// What the tide gauge's packets say, and which messages were missed. Standard input holds MossUDP packets, each after a 2-byte big-endian
// length; one gauge hears them all, and a line says what it notes of each.
#![tactic(auto, using(output::proofs::Adding::adds_then))]

ghost use Rattle.std.specs.Prelude.{◌≤◌, refl, length, drop, ◌≡◌};
ghost use Rattle.differences.specs.Noted.{notes};
ghost use Rattle.moss.specs.Blocks.{messages_in};
ghost use Rattle.moss.specs.Packet.{gives, packet_of, fill_fault};
ghost use Rattle.moss.specs.Answers as answers;
ghost use Rattle.moss.specs.Answers.{headers_of, letter_of};
ghost use Rattle.wire.specs.Slices.{buffer};
ghost use Rattle.stream.specs.declared.Kind.TheVariants.{Bytes2};
ghost use Rattle.output.specs.Output.{Adds, line_limit};
ghost use Rattle.record_lines.specs.Lines.{Tells};
ghost use Rattle.gauge_watch.specs.Heard as heard;
ghost use Rattle.gauge.specs.Lines.{noted_text, spaced, messages_text, line, lines, says};
ghost use Rattle.gauge.specs.Inside.{lengths_in, lengths_of};

use differences::Answer;
use gauge_watch::Gauge;
use moss::Header;
use output::Output;
use record_lines::{LastLine, Teller};
use std::io::{Stdin, Stdout};
use stream::{Input, Kind};

fn pour_noted(out: &mut Output, answer: Answer)
    ensures { Adds out.old (noted_text (notes answer)) out.new }
{
    match answer {
        Answer::First => out.pour(b" first"),
        Answer::Forward(missing) => out.pour_counted(b" forward ", u64::from(missing)),
        Answer::Same => out.pour(b" same"),
        Answer::Late(by) => out.pour_counted(b" late ", u64::from(by)),
        Answer::Restarted(number) => out.pour_counted(b" restarted ", u64::from(number)),
        Answer::Refused(refusal) => out.pour_counted(b" refused ", u64::from(refusal.number())),
    }
}

// The lengths of the messages whose blocks lie from a place on, each after a space.
fn pour_lengths(out: &mut Output, p: &[u8], from: usize)
    requires { fill_fault (messages_in (drop from p.now)) ≡ 0 }
    ensures { Adds out.old (spaced (lengths_in (messages_in (drop from p.now)))) out.new }
{
    let mut block = from;
    // Kept: a `while`, since each block says how far the next one is.
    while block < p.len() {
        let m = wire::number(p, block, 2);
        out.pour_counted(b" ", m);
        block += 2 + m as usize;
    }
}

// A heartbeat and the end of a session have none.
fn pour_messages(out: &mut Output, p: &[u8], header: Header)
    requires { gives (answers.said header) ≡ headers_of (packet_of p.now) }
    ensures { Adds out.old (messages_text (letter_of header.kind) (lengths_of (packet_of p.now))) out.new }
{
    let moss::Kind::Data = header.kind else {
        return;
    };
    out.pour(b" messages");
    pour_lengths(out, p, moss::HEAD);
}

// Line n.
fn pour_line(out: &mut Output, n: u64, p: &[u8], answer: Answer)
    ensures { Adds out.old (line n (packet_of p.now) (notes answer)) out.new }
{
    out.pour_decimal(n);
    let Ok(header) = moss::read_packet(p) else {
        pour_noted(out, answer);
        out.pour(b"\n");
        return;
    };
    let kind = [b' ', u8::from(header.kind)];
    out.pour(&kind);
    pour_noted(out, answer);
    pour_messages(out, p, header);
    out.pour(b"\n");
}

// The gauge that hears all packets.
#[derive(Drop)]
struct Hears {
    gauge: Gauge,
}

impl Teller for Hears {
    ghost Known = { heard.Gauge };

    ghost says = { says };

    ghost known = { λ h. heard.said h.gauge };

    fn line(&mut self, out: &mut Output, n: u64, _head: &[u8], body: &[u8]) {
        let heard = gauge_watch::see_packet(self.gauge, body);
        self.gauge = heard.gauge;
        pour_line(out, n, body, heard.answer);
    }
}

impl LastLine for Hears {
    ghost ends = { refl };
}

// One line a packet of the input, and the last line. Answers whether the system took all of them; it stops where it did not.
fn run(stdin: Stdin, stdout: Stdout, buf: &mut [u8], input: Input, out: &mut [u8]) -> bool
    requires { line_limit ≤ length out.old }
    ensures { Tells Bytes2 lines buf.old input (buffer out) 0 result }
{
    let mut hears = Hears {
        gauge: gauge_watch::new(),
    };
    let mut out = Output::new(stdout, out);
    record_lines::tell(stdin, buf, input, Kind::Bytes2, &mut out, &mut hears)
}

fn main(rt: HostRuntime) {
    let mut buf = [0u8; stream::HOLDS];
    let mut out = [0u8; output::HOLDS];
    run(
        rt.stdin(),
        rt.stdout(),
        &mut buf,
        Input { at: 0, end: 0 },
        &mut out,
    );
}
