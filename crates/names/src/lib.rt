// The name rule: which bytes are a channel's name.
#![tactic(auto)]

ghost use Rattle.std.specs.Prelude.{◌≡◌, eqb};
ghost use Rattle.std.specs.List.{list_all};
ghost use Rattle.names.specs.Scan.{within, start, tails, after, first, next, scan};
ghost use Rattle.names.specs.Name.{good_name_lem};

// The longest name.
pub const MAX_NAME: usize = 63;

// Where a scan of UTF-8 stands: how many bytes of a code point are to come, and from which to which the next may be.
#[derive(Clone, Copy)]
struct Scan {
    left: u8,
    low: u8,
    high: u8,
}

// Where no byte helps any more.
const BAD: Scan = Scan {
    left: 1,
    low: 1,
    high: 0,
};

// Where n bytes are to come, each any byte after a first: none, at the start and after each code point.
fn tails(n: u8) -> Scan
    ensures { result ≡ tails n }
{
    Scan {
        left: n,
        low: 0x80,
        high: 0xbf,
    }
}

fn within(low: u8, high: u8, x: u8) -> bool
    ensures { result ≡ within low high x }
{
    low <= x && x <= high
}

// After the first byte x of a code point that has n more: no overlong form, no surrogate, and nothing above 10FFFF.
fn after(n: u8, x: u8) -> Scan
    ensures { result ≡ after n x }
{
    let (low, high) = match x {
        0xe0 => (0xa0, 0xbf),
        0xed => (0x80, 0x9f),
        0xf0 => (0x90, 0xbf),
        0xf4 => (0x80, 0x8f),
        _ => (0x80, 0xbf),
    };
    Scan {
        left: n,
        low: low,
        high: high,
    }
}

// What the first byte of a code point leads to.
fn first(x: u8) -> Scan
    ensures { result ≡ first x }
{
    if within(32, 126, x) {
        return tails(0);
    }
    if within(0xc2, 0xdf, x) {
        return after(1, x);
    }
    if within(0xe0, 0xef, x) {
        return after(2, x);
    }
    if within(0xf0, 0xf4, x) {
        return after(3, x);
    }
    BAD
}

// What any byte leads to: a byte that may not follow leads where none helps.
fn next(s: Scan, x: u8) -> Scan
    ensures { result ≡ next s x }
{
    if s.left == 0 {
        return first(x);
    }
    if within(s.low, s.high, x) {
        return tails(s.left - 1);
    }
    BAD
}

// Whole code points, each allowed.
fn well_formed(name: &[u8]) -> bool
    ensures { result ≡ eqb (scan start name.now).left 0 }
{
    let mut s = tails(0);
    for x in name {
        s = next(s, *x);
    }
    s.left == 0
}

// Whether each byte is a code point by itself.
fn is_plain(name: &[u8]) -> bool
    ensures { result ≡ list_all (within 32 126) name.now }
{
    name.iter().all(|x| within(32, 126, *x))
}

// The name rule: 1 to 63 bytes of UTF-8. The datagram reader and the cutter ask it here.
pub fn good_name(name: &[u8]) -> bool
    ensures { result ≡ good_name_lem name.now }
{
    if name.len() < 1 {
        return false;
    }
    if MAX_NAME < name.len() {
        return false;
    }
    // Most names are.
    if is_plain(name) {
        return true;
    }
    well_formed(name)
}
