// What the van's C host calls: plain numbers and byte slices. A `&[u8]` passes as a pointer and a length.
#![tactic(auto)]

ghost use Rattle.std.specs.Prelude.{◌≡◌, ◌%◌, ◌^◌};
ghost use Rattle.wire.specs.Sum.{sum};
ghost use Rattle.datagram.specs.Limits.{max_payload, max_fragments};
ghost use Rattle.wire.specs.Given.{code};
ghost use Rattle.refusals.specs.Answers.{given};
ghost use Rattle.datagram.specs.Read.{Good, read_datagram_lem};
ghost use Rattle.host.specs.Fields.{kind_of, Told};
ghost use Rattle.host.specs.Inside.{PlacesFit};
ghost use Rattle.host.specs.Code.{CutTold};

use datagram::Header;
use refusals::Refusal;

// The sum of all bytes, modulo 2^32.
#[unsafe(no_mangle)]
pub extern "C" fn qm_checksum(bytes: &[u8]) -> u32
    ensures { result ≡ sum bytes.now % 2 ^ 32 }
{
    checksum::checksum(bytes)
}

// 1 for a small message, 2 for a fragment.
// Kept: the C interface.
fn kind_of(small: bool) -> u32
    ensures { result ≡ kind_of small }
{
    if small { 1 } else { 2 }
}

// How many numbers tell of a datagram.
pub const FIELDS: usize = 10;

// The ten numbers of a header at the start of fields.
fn put_header(fields: &mut [u32], h: Header) -> Result<(), Refusal>
    requires { PlacesFit h }
    ensures { Told (Good h) fields.old (code (given result)) fields.new }
{
    if fields.len() < FIELDS {
        return Err(Refusal::NoRoom);
    }
    let numbers = [
        kind_of(h.small),
        h.sequence,
        h.size,
        h.offset,
        h.number,
        h.count,
        h.name.at as u32,
        h.name.len as u32,
        h.payload.at as u32,
        h.payload.len as u32,
    ];
    wire::put_all(fields, 0, &numbers);
    Ok(())
}

// The ten numbers of a datagram's header at the start of fields.
fn put_datagram(datagram: &[u8], fields: &mut [u32]) -> Result<(), Refusal>
    ensures { Told (read_datagram_lem max_payload max_fragments datagram.now) fields.old (code (given result)) fields.new }
{
    let h = datagram::read_datagram(datagram, datagram::MAX_PAYLOAD, datagram::MAX_FRAGMENTS)?;
    put_header(fields, h)
}

// Reads a datagram: 0 and ten numbers at the start of fields, or the number of the refusal and no field changed.
// Kept: the C interface.
#[unsafe(no_mangle)]
pub extern "C" fn qm_read_datagram(datagram: &[u8], fields: &mut [u32]) -> u32
    ensures { Told (read_datagram_lem max_payload max_fragments datagram.now) fields.old result fields.new }
{
    match put_datagram(datagram, fields) {
        Ok(()) => 0,
        Err(refusal) => refusal.number(),
    }
}

// Writes datagram `index` of a message at the start of out: count * 2^32 + length, or the number of the refusal.
// Kept: the C interface.
#[unsafe(no_mangle)]
pub extern "C" fn qm_cut(
    name: &[u8],
    payload: &[u8],
    sequence: u32,
    size: usize,
    index: usize,
    out: &mut [u8],
) -> u64
    ensures { CutTold name.now payload.now sequence size index out.old result out.new }
{
    match cutter::cut_datagram(name, payload, sequence, size, index, out) {
        Ok(cut) => (cut.count as u64) * 4294967296 + (cut.len as u64),
        Err(refusal) => u64::from(refusal.number()),
    }
}
