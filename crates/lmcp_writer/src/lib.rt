// The writer of survey messages: a list of numbers to a message's bytes, by the message table. One walk checks (`lmcp_size`), and this one
// writes what is in order, so that it need not look again.
#![tactic(auto)]

ghost use Rattle.std.specs.Prelude.{◌≡◌, ◌+◌, ◌*◌, ◌≤◌, ◌<◌, length, take, drop};
ghost use Rattle.std.proofs.lemmas.List.Edits.{sets};
ghost use Rattle.wire.specs.Choice.{pick};
ghost use Rattle.wire.specs.Bytes.{bytes};
ghost use Rattle.wire.specs.Overlay.{overlay};
ghost use Rattle.wire.specs.Signed.{unsigned};
ghost use Rattle.lmcp.specs.Run.{repeat};
ghost use Rattle.lmcp.specs.Table.{rows_of, fields_of, pitsurv};
ghost use Rattle.lmcp.specs.InsideAhead.{Ahead, Lays};
ghost use Rattle.lmcp.specs.Write.{header};
ghost use Rattle.lmcp.specs.Made.{made_told};
ghost use Rattle.lmcp.specs.Message.{checksum_of, WrittenTo};
ghost use Rattle.lmcp.specs.Lists.{write_list};
ghost use Rattle.lmcp_size.specs.InsideSteps.{write_object, write_row, write_fields};
ghost use Rattle.lmcp_size.specs.InsideWeighs.{Wide};
ghost use Rattle.lmcp_writer.specs.InsidePuts.{Laid, spelled};

use lmcp::{Packed, Spot};
use refusals::Refusal;

// The low two bytes of v, where they have room.
fn put_two(out: &mut [u8], to: usize, v: u64)
    requires { to + 2 ≤ length out.old }
    ensures { out.new ≡ overlay out.old to (bytes 2 v) }
{
    out[to] = (v / 256 % 256) as u8;
    out[to + 1] = (v % 256) as u8;
}

// The low four bytes of v, where they have room.
fn put_four(out: &mut [u8], to: usize, v: u64)
    requires { to + 4 ≤ length out.old }
    ensures { out.new ≡ overlay out.old to (bytes 4 v) }
{
    put_two(out, to, v / 256 / 256);
    put_two(out, to + 2, v);
}

// A number's low w bytes, where they have room: the compiler makes one move of the bytes of a width that it knows.
fn put_number(out: &mut [u8], to: usize, w: usize, v: u64)
    requires { (to + w ≤ length out.old) × Wide w }
    ensures { out.new ≡ overlay out.old to (bytes w v) }
{
    if w == 4 {
        put_four(out, to, v);
        return;
    }
    if w == 2 {
        put_two(out, to, v);
        return;
    }
    if w == 1 {
        out[to] = (v % 256) as u8;
        return;
    }
    put_four(out, to, v / 256 / 256 / 256 / 256);
    put_four(out, to + 4, v);
}

// The 64 bits of a number.
fn bits_of(z: i64) -> u64
    ensures { result ≡ unsigned 64 z }
{
    z.cast_unsigned()
}

// The low w bytes of each of n numbers.
fn put_values(list: &[i64], from: Spot, w: usize, n: usize, out: &mut [u8])
    requires { ((from.p + n ≤ length list.now) × (from.q + n * w ≤ length out.old)) × Wide w }
    ensures { out.new ≡ sets out.old from.q (spelled n w (drop from.p list.now)) }
{
    let mut to = from.q;
    for k in 0..n {
        let z = list[from.p + k];
        put_number(out, to, w, bits_of(z));
        to += w;
    }
}

// An existence byte of 1, and the header of type n.
fn put_header(out: &mut [u8], to: usize, version: u64, n: u64)
    requires { to + 15 ≤ length out.old }
    ensures { out.new ≡ overlay out.old to (header (pitsurv version) n) }
{
    put_number(out, to, 1, 1);
    put_number(out, to + 1, 8, lmcp::SERIES);
    put_number(out, to + 9, 4, n);
    put_number(out, to + 13, 2, version);
}

// A walk over the numbers of a list that is in order, by the table of its version.
#[derive(Drop)]
struct Walk<'a> {
    list: &'a [i64],
    packed: Packed,
}

impl Walk<'_> {
    // One field: row i of the table.
    #[cycle(walk)]
    #[inline(always)]
    fn put_row(&self, from: Spot, deep: usize, i: usize, out: &mut [u8]) -> Spot
        requires { let l = self.now.list.now in (from.p ≤ length l)
            × (((i < 20) × (i < length (rows_of (pitsurv self.now.packed.version)))) × Ahead (write_row self.now.packed.version deep i (drop from.p l)) from.q (length out.old)) }
        ensures { let l = self.now.list.now in Lays l out.old from.q (write_row self.now.packed.version deep i (drop from.p l)) result.p result.q out.new }
    {
        let code = self.packed.rows[i][lmcp::CODE];
        let w = self.packed.rows[i][lmcp::COUNT] as usize;
        let arg = self.packed.rows[i][lmcp::ARG] as usize;
        if w == 0 {
            if code == lmcp::OBJECT_CODE {
                return self.put_object(from, deep, arg, out);
            }
            let n = self.packed.rows[i][lmcp::FIXED] as usize;
            if n == 1 {
                let z = self.list[from.p];
                put_number(out, from.q, arg, bits_of(z));
                return Spot {
                    p: from.p + 1,
                    q: from.q + arg,
                };
            }
            put_values(self.list, from, arg, n, out);
            return Spot {
                p: from.p + n,
                q: from.q + n * arg,
            };
        }
        let z = self.list[from.p];
        let count = lmcp::size_of(z);
        put_number(out, from.q, w, count);
        let m = count as usize;
        let next = Spot {
            p: from.p + 1,
            q: from.q + w,
        };
        if code == lmcp::OBJECT_CODE {
            return self.put_objects(next, deep, arg, m, out);
        }
        put_values(self.list, next, arg, m, out);
        Spot {
            p: next.p + m,
            q: next.q + m * arg,
        }
    }

    // All fields of type t.
    #[cycle(walk)]
    fn put_fields(&self, from: Spot, deep: usize, t: usize, out: &mut [u8]) -> Spot
        requires { let l = self.now.list.now in let v = self.now.packed.version in (from.p ≤ length l)
            × ((t < 8) × Ahead (write_fields v deep (fields_of (pitsurv v) t) (drop from.p l)) from.q (length out.old)) }
        ensures { let l = self.now.list.now in let v = self.now.packed.version in Lays l out.old from.q (write_fields v deep (fields_of (pitsurv v) t) (drop from.p l)) result.p result.q out.new }
    {
        let mut spot = from;
        let first = self.packed.rows[lmcp::BEGINS][t] as usize;
        let end = self.packed.rows[lmcp::ENDS][t] as usize;
        for i in first..end {
            spot = self.put_row(spot, deep, i, out);
        }
        spot
    }

    // n objects of a declared type. A null is written without a call.
    #[cycle(walk)]
    fn put_objects(
        &self,
        from: Spot,
        deep: usize,
        declared: usize,
        n: usize,
        out: &mut [u8],
    ) -> Spot
        requires { let l = self.now.list.now in (from.p ≤ length l) × Ahead (repeat n (write_object self.now.packed.version deep declared) (drop from.p l)) from.q (length out.old) }
        ensures { let l = self.now.list.now in Lays l out.old from.q (repeat n (write_object self.now.packed.version deep declared) (drop from.p l)) result.p result.q out.new }
    {
        let list = self.list;
        let mut spot = from;
        for _ in 0..n {
            let z = list[spot.p];
            if lmcp::size_of(z) == 0 {
                put_number(out, spot.q, 1, 0);
                spot = Spot {
                    p: spot.p + 1,
                    q: spot.q + 1,
                };
                continue;
            }
            spot = self.put_object(spot, deep, declared, out);
        }
        spot
    }

    // An object of a declared type.
    #[cycle(walk)]
    fn put_object(&self, from: Spot, deep: usize, declared: usize, out: &mut [u8]) -> Spot
        requires { let l = self.now.list.now in (from.p ≤ length l) × Ahead (write_object self.now.packed.version deep declared (drop from.p l)) from.q (length out.old) }
        ensures { let l = self.now.list.now in Lays l out.old from.q (write_object self.now.packed.version deep declared (drop from.p l)) result.p result.q out.new }
    {
        let z = self.list[from.p];
        let n = lmcp::size_of(z);
        if n == 0 {
            put_number(out, from.q, 1, 0);
            return Spot {
                p: from.p + 1,
                q: from.q + 1,
            };
        }
        put_header(out, from.q, self.packed.version, n);
        let next = Spot {
            p: from.p + 1,
            q: from.q + 15,
        };
        self.put_fields(next, deep - 1, n as usize, out)
    }
}

// At a place the checksum of all bytes before it, or zero.
fn put_checksum(out: &mut [u8], calculate: bool, end: usize)
    requires { end + 4 ≤ length out.old }
    ensures { out.new ≡ overlay out.old end (bytes 4 (pick calculate (checksum_of (take end out.old)) 0)) }
{
    if calculate {
        let sum = checksum::checksum(&out[..end]);
        put_number(out, end, 4, sum as u64);
        return;
    }
    put_number(out, end, 4, 0);
}

// The message of a list that is in order, behind its version, with a root that ends at a place: "LMCP", the root's length, the root, the checksum.
fn put_message(list: &[i64], version: u64, calculate: bool, end: usize, out: &mut [u8])
    requires { (end + 4 ≤ length out.old) × ((8 ≤ end) × Ahead (write_object version 16 0 list.now) 8 end) }
    ensures { Laid version list.now calculate end out.old out.new }
{
    let magic = lmcp::MAGIC;
    wire::put_bytes(out, 0, &magic);
    put_number(out, 4, 4, (end - 8) as u64);
    let walk = Walk {
        list,
        packed: Packed::of(version),
    };
    walk.put_object(Spot { p: 0, q: 8 }, lmcp::DEEPEST, 0, out);
    put_checksum(out, calculate, end);
}

// Writes the message of a list, which begins with its version, to the start of the output: how many bytes that then begins with. A calculated
// checksum is never zero (`lmcp`, Never).
pub fn write_message(list: &[i64], calculate: bool, out: &mut [u8]) -> Result<usize, Refusal>
    ensures { WrittenTo (write_list calculate list.now) out.old (made_told result) out.new }
{
    let size = lmcp_size::message_size(list)?;
    if out.len() < size {
        return Err(Refusal::NoRoom);
    }
    let first = list[0];
    let version = lmcp::size_of(first);
    put_message(&list[1..], version, calculate, size - 4, out);
    Ok(size)
}
