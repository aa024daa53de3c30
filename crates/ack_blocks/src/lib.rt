// Acknowledge blocks: a single number, first to last, or a bitmap. Reading asks whether a list of blocks acknowledges a number.
#![tactic(auto)]

ghost use Rattle.std.specs.Prelude.{◌≡◌, ◌^◌, ◌<◌, ◌≤◌, length, drop};
ghost use Rattle.wire.specs.Bytes.{be};
ghost use Rattle.refusals.specs.Answers.{given};
ghost use Rattle.ack_blocks.specs.Limits.{max_blocks};
ghost use Rattle.ack_blocks.specs.Blocks.{has, between, in_map};
ghost use Rattle.ack_blocks.specs.Read.{kind_in, bits_in, map_bytes_lem, map_in, size_in, block_in, run_fault_lem, map_fault_lem, fault_in, blocks_in, told, asked, answers};
ghost use Rattle.ack_blocks.specs.Kinds.{byte_of, KindOf};
ghost use Rattle.ack_blocks.specs.InsideWalk.{Inside, judged};

use refusals::Refusal;

// The most bytes of a block list, and the largest number.
pub const MAX_BLOCKS: usize = 65535;

const LARGEST: u64 = 18446744073709551615;

// The kinds of blocks.
#[derive(Clone, Copy, Debug, PartialEq, Eq)]
pub enum Kind {
    Single,
    Run,
    Bitmap,
}

impl TryFrom<u64> for Kind {
    type Error = Refusal;

    ghost try_from_gives = { KindOf };

    fn try_from(byte: u64) -> Result<Kind, Refusal> {
        match byte {
            0 => Ok(Kind::Single),
            1 => Ok(Kind::Run),
            2 => Ok(Kind::Bitmap),
            _ => Err(Refusal::BlockKind),
        }
    }
}

impl From<Kind> for u64 {
    ghost from_gives = { λ kind byte. byte ≡ byte_of kind };

    fn from(kind: Kind) -> u64 {
        match kind {
            Kind::Single => 0,
            Kind::Run => 1,
            Kind::Bitmap => 2,
        }
    }
}

// The bytes of a single, of a run, and of a bitmap before its map.
pub const SINGLE_LENGTH: usize = 1 + 8;

pub const RUN_LENGTH: usize = 1 + 8 + 8;

const MAP_HEAD: usize = 1 + 8 + 2;

// The number of w bytes, at most 8, at a place of the block that begins at another.
fn field(b: &[u8], at: usize, from: usize, w: usize) -> u64
    requires { (at ≤ max_blocks) × ((from ≤ max_blocks) × (w ≤ 8)) }
    ensures { (result ≡ be w (drop from (drop at b.now))) × (result < 256 ^ w) }
{
    wire::number(b, at + from, w)
}

// The bytes of a map of so many bits.
fn map_bytes(bits: u64) -> usize
    requires { bits < 65536 }
    ensures { (result ≡ map_bytes_lem bits) × (result ≤ 8192) }
{
    ((bits + 7) / 8) as usize
}

// The bits of the map of the block at a place.
fn bits_at(b: &[u8], at: usize) -> u64
    requires { at ≤ max_blocks }
    ensures { (result ≡ bits_in (drop at b.now)) × (result < 65536) }
{
    field(b, at, 9, 2)
}

fn kind_at(b: &[u8], at: usize) -> Result<Kind, Refusal>
    requires { at ≤ max_blocks }
    ensures { KindOf (kind_in (drop at b.now)) result }
{
    Kind::try_from(field(b, at, 0, 1))
}

// The bytes of the block at a place.
fn size_at(b: &[u8], at: usize, kind: Kind) -> usize
    requires { (at ≤ max_blocks) × (byte_of kind ≡ kind_in (drop at b.now)) }
    ensures { (result ≡ size_in (drop at b.now)) × ((0 < result) × (result ≤ 8203)) }
{
    match kind {
        Kind::Single => SINGLE_LENGTH,
        Kind::Run => RUN_LENGTH,
        Kind::Bitmap => MAP_HEAD + map_bytes(bits_at(b, at)),
    }
}

fn run_fault(b: &[u8], at: usize) -> Result<(), Refusal>
    requires { at ≤ max_blocks }
    ensures { given result ≡ judged (run_fault_lem (drop at b.now)) }
{
    if field(b, at, 9, 8) < field(b, at, 1, 8) {
        return Err(Refusal::LastBelowFirst);
    }
    Ok(())
}

// The padding of a map stands below its last bit, in its last byte.
fn map_fault(b: &[u8], at: usize) -> Result<(), Refusal>
    requires { at ≤ max_blocks }
    ensures { given result ≡ judged (map_fault_lem (drop at b.now)) }
{
    let bits = bits_at(b, at);
    if bits == 0 {
        return Err(Refusal::BadBitmap);
    }
    if LARGEST - field(b, at, 1, 8) < bits - 1 {
        return Err(Refusal::BadBitmap);
    }
    let m = map_bytes(bits);
    let unused = 8 * m - bits as usize;
    let step = 1u64 << unused;
    if field(b, at, 10 + m, 1) % step == 0 {
        return Ok(());
    }
    Err(Refusal::Padding)
}

// What is wrong with the block of a kind at a place.
fn fault_at(b: &[u8], at: usize, kind: Kind) -> Result<(), Refusal>
    requires { Inside b.now at × (byte_of kind ≡ kind_in (drop at b.now)) }
    ensures { given result ≡ judged (fault_in (drop at b.now)) }
{
    if b.len() - at < size_at(b, at, kind) {
        return Err(Refusal::BlockCut);
    }
    match kind {
        Kind::Single => Ok(()),
        Kind::Run => run_fault(b, at),
        Kind::Bitmap => map_fault(b, at),
    }
}

// Whether n is one of the numbers from first to last.
fn is_between(first: u64, last: u64, n: u64) -> bool
    ensures { result ≡ between first last n }
{
    if n < first {
        return false;
    }
    n <= last
}

// Whether the bitmap at a place, which begins with the number first, acknowledges n: the bit is asked by its place.
fn map_has(b: &[u8], at: usize, first: u64, n: u64) -> bool
    requires { at ≤ max_blocks }
    ensures { result ≡ in_map first (bits_in (drop at b.now)) (map_in (drop at b.now)) n }
{
    if n < first {
        return false;
    }
    let i = n - first;
    if bits_at(b, at) <= i {
        return false;
    }
    let byte = field(b, at, MAP_HEAD + (i / 8) as usize, 1);
    (byte >> (7 - i % 8)) % 2 == 1
}

// Whether the block of a kind at a place acknowledges a number.
fn has_at(b: &[u8], at: usize, kind: Kind, n: u64) -> bool
    requires { (at ≤ max_blocks) × (byte_of kind ≡ kind_in (drop at b.now)) }
    ensures { result ≡ has (block_in (drop at b.now)) n }
{
    let first = field(b, at, 1, 8);
    match kind {
        Kind::Single => n == first,
        Kind::Run => is_between(first, field(b, at, 9, 8), n),
        Kind::Bitmap => map_has(b, at, first, n),
    }
}

// Goes over the blocks; the whole list is read, so a bad block refuses after one that acknowledges the number.
fn walk(b: &[u8], n: u64) -> Result<bool, Refusal>
    requires { length b.now ≤ max_blocks }
    ensures { answers result ≡ told n (blocks_in b.now) }
{
    let mut found = false;
    let mut at: usize = 0;
    // Kept: a `while`, since each block says how far the next one is.
    while at < b.len() {
        let kind = kind_at(b, at)?;
        fault_at(b, at, kind)?;
        found |= has_at(b, at, kind, n);
        at += size_at(b, at, kind);
    }
    Ok(found)
}

// Whether a list of blocks acknowledges a number.
pub fn ask(b: &[u8], n: u64) -> Result<bool, Refusal>
    ensures { answers result ≡ asked b.now n }
{
    if MAX_BLOCKS < b.len() {
        return Err(Refusal::BlocksTooLong);
    }
    walk(b, n)
}
