// Text in a lent buffer. Each function writes at a place and answers the place after it. What has no room is not written, and the place
// is then the buffer's end.
#![tactic(auto)]

ghost use Rattle.std.specs.Prelude.{[], ◌∷◌, ◌++◌, ◌≡◌, ◌+◌, ◌<◌, min};
ghost use Rattle.wire.specs.Text.{ascii};
ghost use Rattle.text.specs.Text.{digit, decimal, signed_decimal, hex};
ghost use Rattle.text.specs.Put.{Put};

// The place after n bytes at a place, or the buffer's end.
fn place_after(len: usize, at: usize, n: usize) -> usize
    ensures { result ≡ min (at + n) len }
{
    at.saturating_add(n).min(len)
}

fn put_one(out: &mut [u8], at: usize, b: u8) -> usize
    ensures { Put out.old at (b ∷ []) out.new result }
{
    if at < out.len() {
        out[at] = b;
        return at + 1;
    }
    out.len()
}

// These bytes as they are.
pub fn put_text(out: &mut [u8], at: usize, text: &[u8]) -> usize
    ensures { Put out.old at text.now out.new result }
{
    wire::put_bytes(out, at, text);
    place_after(out.len(), at, text.len())
}

// The letter of a digit below 16.
fn letter(d: u64) -> u8
    requires { d < 16 }
    ensures { result ≡ digit d }
{
    if d < 10 {
        return (48 + d) as u8;
    }
    (87 + d) as u8
}

// A number in decimal, with no zero in front.
// Kept: by hand and not by `write!`, since that may answer Err, of which no clause says what was written, and `Put` is promised of every number.
pub fn put_decimal(out: &mut [u8], at: usize, n: u64) -> usize
    ensures { Put out.old at (decimal n) out.new result }
{
    if n < 10 {
        return put_one(out, at, letter(n));
    }
    let next = put_decimal(out, at, n / 10);
    put_one(out, next, letter(n % 10))
}

// A signed number in decimal.
pub fn put_signed(out: &mut [u8], at: usize, z: i64) -> usize
    ensures { Put out.old at (signed_decimal z) out.new result }
{
    if z < 0 {
        let next = put_one(out, at, b'-');
        return put_decimal(out, next, z.unsigned_abs());
    }
    put_decimal(out, at, z.unsigned_abs())
}

// One byte as two digits.
fn put_pair(out: &mut [u8], at: usize, b: u8) -> usize
    ensures { Put out.old at (hex (b ∷ [])) out.new result }
{
    let v = u64::from(b);
    let next = put_one(out, at, letter(v / 16));
    put_one(out, next, letter(v % 16))
}

// Bytes in lower-case hexadecimal, two digits each.
pub fn put_hex(out: &mut [u8], at: usize, bytes: &[u8]) -> usize
    ensures { Put out.old at (hex bytes.now) out.new result }
{
    let mut next = at.min(out.len());
    for b in bytes {
        next = put_pair(out, next, *b);
    }
    next
}

// A word and a number.
pub fn put_counted(out: &mut [u8], at: usize, word: &[u8], n: u64) -> usize
    ensures { Put out.old at (word.now ++ decimal n) out.new result }
{
    let next = put_text(out, at, word);
    put_decimal(out, next, n)
}

// A word, a number and the end of the line.
pub fn put_counted_line(out: &mut [u8], at: usize, word: &[u8], n: u64) -> usize
    ensures { Put out.old at (word.now ++ decimal n ++ ascii "\n") out.new result }
{
    let next = put_counted(out, at, word, n);
    put_text(out, next, b"\n")
}
