// The reader of survey messages: a message's bytes to a list of numbers, by the message table. One walk checks (`lmcp_check`), and this one
// writes what is in order, so that it need not look again.
#![tactic(auto)]

ghost use Rattle.std.specs.Prelude.{◌≡◌, [], ◌∷◌, ◌+◌, ◌^◌, ◌≤◌, ◌<◌, pos, length, drop, set};
ghost use Rattle.std.proofs.lemmas.List.Edits.{sets};
ghost use Rattle.wire.specs.Bytes.{be};
ghost use Rattle.lmcp.specs.Run.{repeat, prepend, whole};
ghost use Rattle.lmcp.specs.Table.{fields_of, rows_of, pitsurv};
ghost use Rattle.lmcp.specs.InsidePacked.{width_of};
ghost use Rattle.lmcp.specs.InsideAhead.{Lays};
ghost use Rattle.lmcp.specs.Found.{found_told};
ghost use Rattle.lmcp.specs.Message.{ReadTo};
ghost use Rattle.lmcp.specs.Lists.{read_list};
ghost use Rattle.lmcp_check.specs.InsideSteps.{read_object, read_row, read_fields, read_root};
ghost use Rattle.lmcp_reader.specs.InsidePuts.{Ahead, Rooms, coded, bytes_as_numbers};

use lmcp::{Packed, Spot};
use refusals::Refusal;

// The number z at a place, if the list reaches so far.
fn put(list: &mut [i64], q: usize, z: i64)
    ensures { list.new ≡ set list.old q z }
{
    if q < list.len() {
        list[q] = z;
    }
}

// Kept: `two` and `four` stand in `lmcp_check` too, since a public function asks nothing of its caller and a shared one would test each place again.
fn two(s: &[u8], at: usize) -> u16
    requires { at + 2 ≤ length s.now }
    ensures { result ≡ be 2 (drop at s.now) }
{
    u16::from_be_bytes([s[at], s[at + 1]])
}

fn four(s: &[u8], at: usize) -> u32
    requires { at + 4 ≤ length s.now }
    ensures { result ≡ be 4 (drop at s.now) }
{
    u32::from_be_bytes([s[at], s[at + 1], s[at + 2], s[at + 3]])
}

fn eight(s: &[u8], at: usize) -> u64
    requires { at + 8 ≤ length s.now }
    ensures { result ≡ be 8 (drop at s.now) }
{
    u64::from_be_bytes([
        s[at],
        s[at + 1],
        s[at + 2],
        s[at + 3],
        s[at + 4],
        s[at + 5],
        s[at + 6],
        s[at + 7],
    ])
}

// A number that is not signed.
fn plain_of(v: u64) -> i64
    requires { v < 2 ^ 63 }
    ensures { result ≡ pos v }
{
    v as i64
}

// The number of a code at a place.
fn value_of(s: &[u8], p: usize, code: u8) -> i64
    requires { p + width_of code ≤ length s.now }
    ensures { result ≡ coded code (drop p s.now) }
{
    if code == lmcp::BYTE_CODE {
        return i64::from(s[p]);
    }
    if code == lmcp::UINT16_CODE {
        return i64::from(two(s, p));
    }
    if code == lmcp::UINT32_CODE {
        return i64::from(four(s, p));
    }
    if code == lmcp::INT16_CODE {
        return i64::from(two(s, p).cast_signed());
    }
    if code == lmcp::INT32_CODE {
        return i64::from(four(s, p).cast_signed());
    }
    eight(s, p).cast_signed()
}

// n numbers of one byte each: every array of plain numbers in the table is of bytes. So `value_of` has one caller, and is inlined there.
fn put_bytes_as_numbers(s: &[u8], from: Spot, n: usize, list: &mut [i64])
    requires { ((from.p + n ≤ length s.now) × (from.q + n ≤ 4294967296)) × (length s.now < 4294967296) }
    ensures { list.new ≡ sets list.old from.q (bytes_as_numbers n (drop from.p s.now)) }
{
    for k in 0..n {
        put(list, from.q + k, i64::from(s[from.p + k]));
    }
}

// A walk over the bytes of a root that is in order, by the table of its version. It has no more bytes than a count can have.
#[derive(Drop)]
struct Walk<'a> {
    s: &'a [u8],
    packed: Packed,
    ghost short: { length s.now < 4294967296 },
}

impl Walk<'_> {
    // One field: row i of the table.
    #[cycle(walk)]
    #[inline(always)]
    fn put_row(&self, from: Spot, deep: usize, i: usize, list: &mut [i64]) -> Spot
        requires { let s = self.now.s.now in (from.p ≤ length s)
            × (((i < 20) × (i < length (rows_of (pitsurv self.now.packed.version)))) × Ahead (read_row self.now.packed.version deep i (drop from.p s)) from.q) }
        ensures { let s = self.now.s.now in Lays s list.old from.q (read_row self.now.packed.version deep i (drop from.p s)) result.p result.q list.new }
    {
        let row = self.packed.rows[i];
        let code = row[lmcp::CODE];
        let w = row[lmcp::COUNT] as usize;
        let arg = row[lmcp::ARG] as usize;
        if w == 0 {
            if code == lmcp::OBJECT_CODE {
                return self.put_object(from, deep, arg, list);
            }
            let n = row[lmcp::FIXED] as usize;
            if n == 1 {
                put(list, from.q, value_of(self.s, from.p, code));
                return Spot {
                    p: from.p + arg,
                    q: from.q + 1,
                };
            }
            put_bytes_as_numbers(self.s, from, n, list);
            return Spot {
                p: from.p + n,
                q: from.q + n,
            };
        }
        let count = wire::number(self.s, from.p, w);
        put(list, from.q, plain_of(count));
        let m = count as usize;
        let next = Spot {
            p: from.p + w,
            q: from.q + 1,
        };
        if code == lmcp::OBJECT_CODE {
            return self.put_objects(next, deep, arg, m, list);
        }
        put_bytes_as_numbers(self.s, next, m, list);
        Spot {
            p: next.p + m,
            q: next.q + m,
        }
    }

    // All fields of type t.
    #[cycle(walk)]
    fn put_fields(&self, from: Spot, deep: usize, t: usize, list: &mut [i64]) -> Spot
        requires { let s = self.now.s.now in let v = self.now.packed.version in (from.p ≤ length s) × ((t < 8) × Ahead (read_fields v deep (fields_of (pitsurv v) t) (drop from.p s)) from.q) }
        ensures { let s = self.now.s.now in let v = self.now.packed.version in Lays s list.old from.q (read_fields v deep (fields_of (pitsurv v) t) (drop from.p s)) result.p result.q list.new }
    {
        let mut spot = from;
        let first = self.packed.rows[lmcp::BEGINS][t] as usize;
        let end = self.packed.rows[lmcp::ENDS][t] as usize;
        for i in first..end {
            spot = self.put_row(spot, deep, i, list);
        }
        spot
    }

    // n objects of a declared type. A null is laid without a call.
    #[cycle(walk)]
    fn put_objects(
        &self,
        from: Spot,
        deep: usize,
        declared: usize,
        n: usize,
        list: &mut [i64],
    ) -> Spot
        requires { let s = self.now.s.now in (from.p ≤ length s) × Ahead (repeat n (read_object self.now.packed.version deep declared) (drop from.p s)) from.q }
        ensures { let s = self.now.s.now in Lays s list.old from.q (repeat n (read_object self.now.packed.version deep declared) (drop from.p s)) result.p result.q list.new }
    {
        let s = self.s;
        let mut spot = from;
        for _ in 0..n {
            if s[spot.p] == 0 {
                put(list, spot.q, 0);
                spot = Spot {
                    p: spot.p + 1,
                    q: spot.q + 1,
                };
                continue;
            }
            spot = self.put_object(spot, deep, declared, list);
        }
        spot
    }

    // An object of a declared type.
    #[cycle(walk)]
    fn put_object(&self, from: Spot, deep: usize, declared: usize, list: &mut [i64]) -> Spot
        requires { let s = self.now.s.now in (from.p ≤ length s) × Ahead (read_object self.now.packed.version deep declared (drop from.p s)) from.q }
        ensures { let s = self.now.s.now in Lays s list.old from.q (read_object self.now.packed.version deep declared (drop from.p s)) result.p result.q list.new }
    {
        let exists = self.s[from.p];
        if exists == 0 {
            put(list, from.q, 0);
            return Spot {
                p: from.p + 1,
                q: from.q + 1,
            };
        }
        let t = four(self.s, from.p + 9);
        put(list, from.q, i64::from(t));
        let next = Spot {
            p: from.p + 15,
            q: from.q + 1,
        };
        self.put_fields(next, deep - 1, t as usize, list)
    }

    // Whether the list has room for the version and the numbers of the root. A number takes a byte at least, so a list longer than the root
    // has; else the walk goes once over no list at all, and counts.
    fn has_room(&self, list: &mut [i64]) -> bool
        requires { Ahead (read_object self.now.packed.version 16 0 self.now.s.now) 1 }
        ensures { (list.new ≡ list.old) × Rooms (read_object self.now.packed.version 16 0 self.now.s.now) (length list.old) result }
    {
        if self.s.len() < list.len() {
            return true;
        }
        let none = 0;
        let done = self.put_object(Spot { p: 0, q: 1 }, lmcp::DEEPEST, 0, &mut list[..none]);
        let most = done.q;
        most <= list.len()
    }
}

// The version, and behind it the numbers of a root that is in order, where the list has room for them.
fn put_list(s: &[u8], version: u64, list: &mut [i64]) -> Result<usize, Refusal>
    requires { (version < 2 ^ 63) × ((length s.now < 4294967296) × Ahead (whole (read_root version s.now)) 1) }
    ensures { ReadTo (prepend (pos version ∷ []) (whole (read_root version s.now))) list.old (found_told result) list.new }
{
    let walk = Walk {
        s,
        packed: Packed::of(version),
    };
    if !walk.has_room(list) {
        return Err(Refusal::NoRoom);
    }
    put(list, 0, plain_of(version));
    let done = walk.put_object(Spot { p: 0, q: 1 }, lmcp::DEEPEST, 0, list);
    let count = done.q;
    Ok(count)
}

// Reads a message of either version into the start of the list: how many numbers it then begins with.
pub fn read_message(message: &[u8], list: &mut [i64]) -> Result<usize, Refusal>
    ensures { ReadTo (read_list message.now) list.old (found_told result) list.new }
{
    lmcp_check::check_message(message)?;
    let end = message.len() - 4;
    let s = &message[8..end];
    put_list(s, lmcp_check::version_of(s), list)
}
