// Whether a survey message is in order: the walk that only checks. It writes nothing and makes no numbers.
#![tactic(auto)]

ghost use Rattle.std.specs.Prelude.{◌≡◌, ◌+◌, ◌≤◌, ◌<◌, ◌&&◌, ltb, eqb, length, drop, get_or};
ghost use Rattle.wire.specs.Bytes.{be};
ghost use Rattle.lmcp.specs.Run.{repeat, whole};
ghost use Rattle.lmcp.specs.Table.{fields_of, rows_of, pitsurv, char_kind};
ghost use Rattle.lmcp.specs.Read.{read_value, known, read_head};
ghost use Rattle.lmcp.specs.Message.{frame};
ghost use Rattle.lmcp.specs.Lists.{version_of_lem, read_list};
ghost use Rattle.lmcp_check.specs.Refusal.{refusal_of, told};
ghost use Rattle.lmcp_check.specs.InsideSteps.{read_object, read_fields, read_root};
ghost use Rattle.lmcp_check.specs.InsideChecks.{Checks, Heads, Ran, step_rows};

use lmcp::Packed;
use refusals::Refusal;

// The series in two halves: the compiler looks at four bytes at once, but not at eight.
const SERIES_BEGINS: u64 = lmcp::SERIES / 4294967296;

const SERIES_ENDS: u64 = lmcp::SERIES % 4294967296;

// Kept: `two` and `four` stand in the reader too, since a public function asks nothing of its caller and a shared one would test each place again.
fn two(s: &[u8], at: usize) -> u64
    requires { at + 2 ≤ length s.now }
    ensures { (result ≡ be 2 (drop at s.now)) × (result < 65536) }
{
    u64::from(u16::from_be_bytes([s[at], s[at + 1]]))
}

fn four(s: &[u8], at: usize) -> u64
    requires { at + 4 ≤ length s.now }
    ensures { (result ≡ be 4 (drop at s.now)) × (result < 4294967296) }
{
    u64::from(u32::from_be_bytes([s[at], s[at + 1], s[at + 2], s[at + 3]]))
}

// Whether the 14 bytes of a header are in the table.
fn known_at(s: &[u8], at: usize, version: u64, declared: usize) -> bool
    requires { at + 14 ≤ length s.now }
    ensures { result ≡ known (pitsurv version) declared (drop at s.now) }
{
    let begins = four(s, at);
    let ends = four(s, at + 4);
    if begins != SERIES_BEGINS {
        return false;
    }
    if ends != SERIES_ENDS {
        return false;
    }
    if two(s, at + 12) != version {
        return false;
    }
    lmcp::typed_in(version, declared, four(s, at + 8))
}

// The head of an object: its type, or none for null.
fn head_of(
    s: &[u8],
    at: usize,
    version: u64,
    deep: usize,
    declared: usize,
) -> Result<Option<usize>, Refusal>
    requires { at ≤ length s.now }
    ensures { Heads s.now at (read_head (pitsurv version) deep declared (drop at s.now)) result }
{
    if s.len() - at < 1 {
        return Err(Refusal::EndsInside);
    }
    let exists = wire::wide(s[at]);
    if exists == 0 {
        return Ok(None);
    }
    if exists != 1 {
        return Err(Refusal::NotABool);
    }
    if deep == 0 {
        return Err(Refusal::TooDeep);
    }
    // A header that is cut short is 25, whatever stands in it.
    let cut = Refusal::EndsInside;
    if s.len() - at < 15 {
        return Err(cut);
    }
    if known_at(s, at + 1, version, declared) {
        return Ok(Some(four(s, at + 9) as usize));
    }
    Err(Refusal::UnknownType)
}

// n characters.
fn check_chars(s: &[u8], at: usize, n: usize) -> Result<usize, Refusal>
    requires { (at ≤ length s.now) × (length s.now < 4294967296) }
    ensures { Checks s.now (repeat n (read_value char_kind 1) (drop at s.now)) result }
{
    let mut p = at;
    for _ in 0..n {
        if s.len() <= p {
            return Err(Refusal::EndsInside);
        }
        if 127 < s[p] {
            return Err(Refusal::NotAscii);
        }
        p += 1;
    }
    Ok(p)
}

// A run of so many bytes, the last of them a bool where `ended` is not 0.
fn check_run(s: &[u8], p: usize, bytes: usize, ended: usize) -> Result<usize, Refusal>
    requires { (p ≤ length s.now) × (1 ≤ bytes) }
    ensures { Ran s.now p bytes ended result }
{
    if s.len() - p < bytes {
        return Err(Refusal::EndsInside);
    }
    if ended == 0 {
        return Ok(p + bytes);
    }
    if 1 < s[p + bytes - 1] {
        return Err(Refusal::NotABool);
    }
    Ok(p + bytes)
}

// Whether a null stands at a place.
fn null_at(s: &[u8], at: usize) -> bool
    ensures { result ≡ (ltb at (length s.now) && eqb (get_or s.now at 0) 0) }
{
    if at < s.len() {
        return s[at] == 0;
    }
    false
}

// A walk over the bytes of a root, by the table of its version. It has no more bytes than a count can have.
#[derive(Drop)]
struct Walk<'a> {
    s: &'a [u8],
    packed: Packed,
    ghost short: { length s.now < 4294967296 },
}

impl Walk<'_> {
    // One step along the rows: a run, an object, or an array with a count.
    #[cycle(walk)]
    fn check_row(&self, at: usize, deep: usize, i: usize) -> Result<usize, Refusal>
        requires { (at ≤ length self.now.s.now) × ((i < 20) × (i < length (rows_of (pitsurv self.now.packed.version)))) }
        ensures { let v = self.now.packed.version in Checks self.now.s.now (read_fields v deep (step_rows v i) (drop at self.now.s.now)) result }
    {
        let row = self.packed.rows[i];
        let bytes = row[lmcp::RUN_BYTES] as usize;
        if bytes != 0 {
            let ended = row[lmcp::RUN_BOOL] as usize;
            return check_run(self.s, at, bytes, ended);
        }
        let w = row[lmcp::COUNT] as usize;
        let arg = row[lmcp::ARG] as usize;
        if w == 0 {
            return self.check_object(at, deep, arg);
        }
        if self.s.len() - at < w {
            return Err(Refusal::EndsInside);
        }
        let n = wire::number(self.s, at, w) as usize;
        let next = at + w;
        if row[lmcp::KIND] == lmcp::CHAR_KIND {
            return check_chars(self.s, next, n);
        }
        self.check_objects(next, deep, arg, n)
    }

    // All fields of type t. A step takes one row or the rows of a run, so that no range counts the steps.
    #[cycle(walk)]
    fn check_fields(&self, at: usize, deep: usize, t: usize) -> Result<usize, Refusal>
        requires { (at ≤ length self.now.s.now) × (t < 8) }
        ensures { let v = self.now.packed.version in Checks self.now.s.now (read_fields v deep (fields_of (pitsurv v) t) (drop at self.now.s.now)) result }
    {
        let mut p = at;
        let mut i = self.packed.rows[lmcp::BEGINS][t] as usize;
        let end = self.packed.rows[lmcp::ENDS][t] as usize;
        while i < end {
            p = self.check_row(p, deep, i)?;
            i += self.packed.rows[i][lmcp::RUN_ROWS] as usize;
        }
        Ok(p)
    }

    // n objects of a declared type. A null is passed without a call.
    #[cycle(walk)]
    fn check_objects(
        &self,
        at: usize,
        deep: usize,
        declared: usize,
        n: usize,
    ) -> Result<usize, Refusal>
        requires { at ≤ length self.now.s.now }
        ensures { Checks self.now.s.now (repeat n (read_object self.now.packed.version deep declared) (drop at self.now.s.now)) result }
    {
        let s = self.s;
        let mut p = at;
        for _ in 0..n {
            if null_at(s, p) {
                p += 1;
                continue;
            }
            p = self.check_object(p, deep, declared)?;
        }
        Ok(p)
    }

    // An object of a declared type, 0 for any, where objects may still nest so deep.
    #[cycle(walk)]
    fn check_object(&self, at: usize, deep: usize, declared: usize) -> Result<usize, Refusal>
        requires { at ≤ length self.now.s.now }
        ensures { Checks self.now.s.now (read_object self.now.packed.version deep declared (drop at self.now.s.now)) result }
    {
        let head = head_of(self.s, at, self.packed.version, deep, declared)?;
        let Some(t) = head else {
            return Ok(at + 1);
        };
        self.check_fields(at + 15, deep - 1, t)
    }
}

// What is wrong with a root of a version, if anything is.
fn check_root(s: &[u8], version: u64) -> Result<(), Refusal>
    requires { length s.now < 4294967296 }
    ensures { told result ≡ refusal_of (whole (read_root version s.now)) }
{
    if s.len() == 0 {
        return Err(Refusal::EndsInside);
    }
    if wire::wide(s[0]) == 0 {
        return Err(Refusal::NotABool);
    }
    let walk = Walk {
        s,
        packed: Packed::of(version),
    };
    let end = walk.check_object(0, lmcp::DEEPEST, 0)?;
    if end != s.len() {
        return Err(Refusal::LeftOver);
    }
    Ok(())
}

// The version of a message, by its root: 2 where the root's header says so, else 1, whose table refuses any other.
pub fn version_of(s: &[u8]) -> u64
    ensures { result ≡ version_of_lem s.now }
{
    let v = wire::number(s, 13, 2);
    if v == 2 {
        return v;
    }
    1
}

// What is wrong with a message before its root, if anything is.
fn frame_of(m: &[u8]) -> Result<(), Refusal>
    ensures { told result ≡ frame m.now }
{
    if m.len() < 12 {
        return Err(Refusal::NotLmcp);
    }
    let magic = lmcp::MAGIC;
    if !wire::same_at(m, 0, &magic) {
        return Err(Refusal::NotLmcp);
    }
    if lmcp::MAX_MESSAGE < m.len() {
        return Err(Refusal::MessageLength);
    }
    let n = wire::number(m, 4, 4) as usize;
    if m.len() != 12 + n {
        return Err(Refusal::MessageLength);
    }
    let end = m.len() - 4;
    let sum = wire::number(m, end, 4);
    if sum == 0 {
        return Ok(());
    }
    if sum == checksum::checksum(&m[..end]) as u64 {
        return Ok(());
    }
    Err(Refusal::Checksum)
}

// What is wrong with a message of either version, if anything is.
pub fn check_message(message: &[u8]) -> Result<(), Refusal>
    ensures { told result ≡ refusal_of (read_list message.now) }
{
    frame_of(message)?;
    let end = message.len() - 4;
    let s = &message[8..end];
    check_root(s, version_of(s))
}
