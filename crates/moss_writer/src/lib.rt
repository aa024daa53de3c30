// The writer of MossUDP packets: message blocks laid one after another, and a packet of such blocks.
#![tactic(auto)]

ghost use Rattle.std.specs.Prelude.{◌≡◌, ◌≤◌, length};
ghost use Rattle.wire.specs.Overlay.{overlay};
ghost use Rattle.moss.specs.Limits.{max_packet};
ghost use Rattle.moss_writer.specs.Write.{packet_bytes, written_of, writes, WritesPacket, LaysBlock};

use refusals::Refusal;

// The longest message: a block's length has 2 bytes.
pub const MAX_MESSAGE: usize = 65535;

// Lays one message block at a place of the output: its length, then its bytes. Answers how many bytes it takes.
pub fn lay_block(out: &mut [u8], at: usize, message: &[u8]) -> Result<usize, Refusal>
    ensures { LaysBlock message.now at out.old result out.new }
{
    let n = message.len();
    if MAX_MESSAGE < n {
        return Err(Refusal::PacketLength);
    }
    if wire::room(out.len(), at) < 2 + n {
        return Err(Refusal::NoRoomForPacket);
    }
    wire::put_number(&mut *out, at, 2, n as u64);
    wire::put_bytes(&mut *out, at + 2, message);
    Ok(2 + n)
}

// How long a packet with these blocks is, or why there is none.
fn plan(kind: u8, blocks: &[u8], room: usize) -> Result<usize, Refusal>
    ensures { writes result ≡ written_of kind blocks.now room }
{
    if moss::MAX_PACKET - moss::HEAD < blocks.len() {
        return Err(Refusal::PacketLength);
    }
    moss::block_fault(kind, blocks)?;
    let n = moss::HEAD + blocks.len();
    if room < n {
        return Err(Refusal::NoRoomForPacket);
    }
    Ok(n)
}

// The bytes of a packet, field by field, at the start of the output.
fn put_packet(out: &mut [u8], session: [u8; moss::SESSION], sequence: u32, kind: u8, blocks: &[u8])
    requires { length blocks.now ≤ max_packet }
    ensures { out.new ≡ overlay out.old 0 (packet_bytes session sequence kind blocks.now) }
{
    let n = moss::HEAD + blocks.len();
    wire::put_number(&mut *out, 0, 4, n as u64);
    wire::put_bytes(&mut *out, moss::SESSION_AT, &session);
    wire::put_number(&mut *out, moss::SEQUENCE_AT, 4, sequence as u64);
    wire::put_number(&mut *out, moss::KIND_AT, 1, kind as u64);
    wire::put_bytes(&mut *out, moss::HEAD, blocks);
}

// Writes a packet of these message blocks, as they will lie, at the start of the output. Answers how many bytes it takes.
pub fn write_packet(
    session: [u8; moss::SESSION],
    sequence: u32,
    kind: u8,
    blocks: &[u8],
    out: &mut [u8],
) -> Result<usize, Refusal>
    ensures { WritesPacket session sequence kind blocks.now out.old result out.new }
{
    let n = plan(kind, blocks, out.len())?;
    put_packet(&mut *out, session, sequence, kind, blocks);
    Ok(n)
}
