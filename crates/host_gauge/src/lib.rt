// The tide gauge's packets for a C host: read, written, and what the watch says of them.
#![tactic(auto)]

ghost use Rattle.wire.specs.Slices.{buffer};
ghost use Rattle.host_gauge.specs.Packets.{PacketTold, PlaceTold, WriteTold};

use refusals::Refusal;

mod watching;

pub use watching::qm_gauge_see;

// How many numbers tell of a packet, and of a message.
pub const PACKET: usize = 4;

pub const MESSAGE: usize = 2;

// Reads a packet: 0, and at the start of told where its session stands, its sequence, its type and how many messages it carries; or the number of the refusal,
// and then nothing is written.
#[unsafe(no_mangle)]
pub extern "C" fn qm_moss_read(packet: &[u8], told: &mut [u64]) -> u32
    ensures { PacketTold packet.now (buffer told) result }
{
    if told.len() < PACKET {
        return Refusal::NoRoom.number();
    }
    match moss::read_packet(packet) {
        Ok(h) => {
            let numbers = [
                h.session as u64,
                h.sequence as u64,
                u8::from(h.kind) as u64,
                h.count as u64,
            ];
            words::put_words(told, 0, &numbers);
            0
        }
        Err(refusal) => refusal.number(),
    }
}

// Message n of a packet, from 0: 0, and at the start of told where it begins and its length; or the number of the refusal, and then nothing is written.
#[unsafe(no_mangle)]
pub extern "C" fn qm_moss_message(packet: &[u8], n: usize, told: &mut [u64]) -> u32
    ensures { PlaceTold packet.now n (buffer told) result }
{
    if told.len() < MESSAGE {
        return Refusal::NoRoom.number();
    }
    match moss::message_place(packet, n) {
        Ok(place) => {
            let numbers = [place.at as u64, place.len as u64];
            words::put_words(told, 0, &numbers);
            0
        }
        Err(refusal) => refusal.number(),
    }
}

// Writes a packet of message blocks, as they will lie, at the start of an output: 0, and its length at the start of told; or the number of the refusal, and then
// nothing is written.
#[unsafe(no_mangle)]
pub extern "C" fn qm_moss_write(
    session: &[u8],
    sequence: u32,
    kind: u8,
    blocks: &[u8],
    out: &mut [u8],
    told: &mut [u64],
) -> u32
    ensures { WriteTold session.now sequence kind blocks.now (buffer out) (buffer told) result }
{
    if session.len() < moss::SESSION {
        return Refusal::NoRoom.number();
    }
    if told.len() < 1 {
        return Refusal::NoRoom.number();
    }
    let ten = moss::session_at(session, 0);
    match moss_writer::write_packet(ten, sequence, kind, blocks, out) {
        Ok(n) => {
            words::put_word(told, 0, n as u64);
            0
        }
        Err(refusal) => refusal.number(),
    }
}
