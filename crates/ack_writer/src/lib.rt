// The writer of acknowledge blocks: the blocks of a sorted list of distinct numbers.
#![tactic(auto)]

ghost use Rattle.std.specs.Prelude.{◌≡◌, ◌+◌, ◌<◌, ◌≤◌, eqb, length};
ghost use Rattle.wire.specs.Overlay.{overlay};
ghost use Rattle.ack_blocks.specs.Limits.{max_blocks};
ghost use Rattle.ack_blocks.specs.Blocks.{block_bytes};
ghost use Rattle.ack_writer.specs.Write.{one_block, room_for, writes, WritesBlocks};
ghost use Rattle.ack_writer.specs.InsideWalk.{RunFrom, PutNext, Lays};

use ack_blocks::Kind;
use refusals::Refusal;

// An unbroken run of a list: its last number, the place after it, and whether the number there, if any, is above.
#[derive(Drop)]
struct Run {
    last: u64,
    next: usize,
    rises: bool,
}

// Whether x is one more than last; nothing follows the largest number.
fn follows(last: u64, x: u64) -> bool
    ensures { result ≡ eqb x (last + 1) }
{
    if x == 0 {
        return false;
    }
    x - 1 == last
}

// The unbroken run from a place of the list.
fn run_from(list: &[u64], from: usize) -> Run
    requires { from < length list.now }
    ensures { RunFrom list.now from result.last result.next result.rises }
{
    let mut last = list[from];
    for i in from + 1..list.len() {
        let x = list[i];
        if !follows(last, x) {
            return Run {
                last,
                next: i,
                rises: last < x,
            };
        }
        last = x;
    }
    Run {
        last,
        next: list.len(),
        rises: true,
    }
}

// The bytes of the block of a run.
fn block_length(first: u64, last: u64) -> usize
    ensures { (result ≡ length (block_bytes (one_block first last))) × (result ≤ 17) }
{
    if first == last {
        return ack_blocks::SINGLE_LENGTH;
    }
    ack_blocks::RUN_LENGTH
}

// The block of a run at a place of the output.
fn put_block(out: &mut [u8], at: usize, first: u64, last: u64)
    requires { at ≤ max_blocks }
    ensures { out.new ≡ overlay out.old at (block_bytes (one_block first last)) }
{
    if first == last {
        wire::put_number(&mut *out, at, 1, u64::from(Kind::Single));
        wire::put_number(&mut *out, at + 1, 8, first);
        return;
    }
    wire::put_number(&mut *out, at, 1, u64::from(Kind::Run));
    wire::put_number(&mut *out, at + 1, 8, first);
    wire::put_number(&mut *out, at + 9, 8, last);
}

// The block of a run at a place, and the place after it. No block is put past the most bytes: the place then stays.
fn put_next(blocks: &mut [u8], at: usize, first: u64, last: u64) -> usize
    ensures { PutNext blocks.old at (block_bytes (one_block first last)) result blocks.new }
{
    if ack_blocks::MAX_BLOCKS < at {
        return at;
    }
    put_block(&mut *blocks, at, first, last);
    at + block_length(first, last)
}

// So many bytes, or why they are not written.
fn room_for(n: usize, room: usize) -> Result<usize, Refusal>
    ensures { writes result ≡ room_for n room }
{
    if ack_blocks::MAX_BLOCKS < n {
        return Err(Refusal::BlocksTooLong);
    }
    if room < n {
        return Err(Refusal::NoRoomForBlocks);
    }
    Ok(n)
}

// Goes over the list once: its blocks at the start of the block space, and how many bytes they take, or why they are not written. That it
// does not rise may be seen at its end, so nothing goes to the output here.
fn lay(list: &[u64], room: usize, blocks: &mut [u8]) -> Result<usize, Refusal>
    ensures { Lays list.now room blocks.old result blocks.new }
{
    let mut at: usize = 0;
    let mut i: usize = 0;
    while i < list.len() {
        let run = run_from(list, i);
        if !run.rises {
            return Err(Refusal::DoesNotRise);
        }
        at = put_next(&mut *blocks, at, list[i], run.last);
        i = run.next;
    }
    room_for(at, room)
}

// Writes the blocks of a list of numbers, sorted and distinct, at the start of the output: a lone number as a single, each longer unbroken
// run as first to last. Answers how many bytes they take.
pub fn write_blocks(list: &[u64], out: &mut [u8]) -> Result<usize, Refusal>
    ensures { WritesBlocks list.now out.old result out.new }
{
    let mut blocks = [0u8; ack_blocks::MAX_BLOCKS];
    let n = lay(list, out.len(), &mut blocks)?;
    wire::put_bytes(&mut *out, 0, &blocks[..n]);
    Ok(n)
}
