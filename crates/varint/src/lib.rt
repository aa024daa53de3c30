// Numbers in groups of seven bits, the lowest group first, the top bit set on all but the last, in the shortest form.
#![tactic(auto)]

ghost use Rattle.std.specs.Prelude.{◌≡◌, ◌*◌, ◌^◌, ◌<◌, ◌≤◌, length, drop};
ghost use Rattle.wire.specs.Overlay.{overlay};
ghost use Rattle.varint.specs.Seven.{groups_after, groups, seven, groups_in, placed, seven_at, told};

use refusals::Refusal;

// A 64-bit number has its first group and at most nine after it.
const GROUPS_AFTER: usize = 9;

fn length_of(k: usize, v: u64) -> usize
    requires { k ≤ groups_after }
    ensures { result ≡ length (groups k v) }
{
    if k == 0 {
        return 1;
    }
    if v < 128 {
        return 1;
    }
    length_of(k - 1, v / 128) + 1
}

// How many bytes a number takes.
pub fn seven_length(v: u64) -> usize
    ensures { result ≡ length (seven v) }
{
    length_of(GROUPS_AFTER, v)
}

fn put_groups(out: &mut [u8], at: usize, k: usize, v: u64)
    requires { v < 2 * 128 ^ k }
    ensures { out.new ≡ overlay out.old at (groups k v) }
{
    if out.len() <= at {
        return;
    }
    if v < 128 {
        out[at] = v as u8;
        return;
    }
    out[at] = (128 + v % 128) as u8;
    put_groups(out, at + 1, k - 1, v / 128);
}

// The bytes of a number at a place.
pub fn put_seven(out: &mut [u8], at: usize, v: u64)
    ensures { out.new ≡ overlay out.old at (seven v) }
{
    put_groups(out, at, GROUPS_AFTER, v);
}

// The number of at most k groups after its first, and the place after it.
fn read_groups(s: &[u8], at: usize, k: usize) -> Result<(u64, usize), Refusal>
    requires { k ≤ groups_after }
    ensures { told result ≡ placed s.now (groups_in k (drop at s.now)) }
{
    if s.len() <= at {
        return Err(Refusal::LogCut);
    }
    let x = wire::wide(s[at]);
    if k == 0 {
        if 1 < x {
            return Err(Refusal::NotShortest);
        }
        return Ok((x, at + 1));
    }
    if x < 128 {
        return Ok((x, at + 1));
    }
    let (v, next) = read_groups(s, at + 1, k - 1)?;
    if v == 0 {
        return Err(Refusal::NotShortest);
    }
    Ok((x - 128 + 128 * v, next))
}

// The number at a place, and the place after it. It is refused by 43 where it is cut, and by 41 where it is not in its shortest form or its tenth
// byte is above 1.
pub fn read_seven(s: &[u8], at: usize) -> Result<(u64, usize), Refusal>
    ensures { told result ≡ seven_at s.now at }
{
    read_groups(s, at, GROUPS_AFTER)
}
