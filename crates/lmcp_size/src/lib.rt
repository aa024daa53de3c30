// How long the message of a list of numbers is, or what is wrong with the list: the writer's walk that only checks. It writes nothing.
#![tactic(auto)]

ghost use Rattle.std.specs.Prelude.{◌≡◌, ◌-◌, ◌*◌, ◌^◌, ◌≤◌, ◌<◌, length, drop};
ghost use Rattle.lmcp.specs.Run.{repeat};
ghost use Rattle.lmcp.specs.Table.{fields_of, rows_of, pitsurv};
ghost use Rattle.lmcp.specs.Value.{below, values, fits, denial};
ghost use Rattle.lmcp.specs.Write.{write_value, write_count, typed_by_lem, write_head};
ghost use Rattle.refusals.specs.Numbers.{number_of};
ghost use Rattle.lmcp.specs.Made.{made_told};
ghost use Rattle.lmcp.specs.Message.{write_message_lem};
ghost use Rattle.lmcp.specs.Lists.{is_version_lem, write_list};
ghost use Rattle.lmcp_size.specs.Size.{SizeOf};
ghost use Rattle.lmcp_size.specs.InsideSteps.{write_object, write_row, write_fields, write_root};
ghost use Rattle.lmcp_size.specs.InsideWeighs.{Wide, Ranges, Weighs, Tells, Stands};

use lmcp::{Packed, Spot};
use refusals::Refusal;

// Whether a number is one of 0 up to n - 1.
fn below_of(n: u64, z: i64) -> bool
    ensures { result ≡ below n z }
{
    if z < 0 {
        return false;
    }
    lmcp::size_of(z) < n
}

// Whether a number is a version: 1 or 2.
fn is_version(z: i64) -> bool
    ensures { result ≡ is_version_lem z }
{
    if below_of(1, z) {
        return false;
    }
    below_of(3, z)
}

// How many numbers of a width are not negative where they are signed: as `lmcp::half`, whose table the compiler would store anew at each look.
fn half_of(w: usize) -> u64
    requires { Wide w }
    ensures { result ≡ 2 ^ (8 * w - 1) }
{
    if w == 4 {
        return 2147483648;
    }
    if w == 2 {
        return 32768;
    }
    if w == 1 {
        return 128;
    }
    9223372036854775808
}

// How many values a kind that is not signed has in w bytes.
fn values_of(kind: u8, w: usize) -> u64
    requires { Wide w × (w ≤ 7) }
    ensures { result ≡ values kind w }
{
    if kind == lmcp::BOOL_KIND {
        return 2;
    }
    if kind == lmcp::CHAR_KIND {
        return 128;
    }
    let h = half_of(w);
    h + h
}

// Whether a number is in the range of a kind and w bytes.
fn fits_in(kind: u8, w: usize, z: i64) -> bool
    requires { Ranges kind w }
    ensures { result ≡ fits kind w z }
{
    if kind == lmcp::SIGNED_KIND {
        let n = lmcp::size_of(z);
        let h = half_of(w);
        return n < h;
    }
    below_of(values_of(kind, w), z)
}

// The refusal of a number that is not.
fn denial_of(kind: u8) -> Refusal
    ensures { number_of result ≡ denial kind }
{
    if kind == lmcp::CHAR_KIND {
        return Refusal::NotAscii;
    }
    Refusal::OutOfRange
}

// One value of a kind that is no object.
fn check_value(list: &[i64], from: Spot, kind: u8, w: usize) -> Result<Spot, Refusal>
    requires { Stands list.now from × Ranges kind w }
    ensures { Weighs list.now from.q (write_value kind w (drop from.p list.now)) result }
{
    if from.p == list.len() {
        return Err(Refusal::EndsInside);
    }
    let z = list[from.p];
    if fits_in(kind, w, z) {
        return Ok(Spot {
            p: from.p + 1,
            q: from.q + w,
        });
    }
    Err(denial_of(kind))
}

// n values of a kind that is no object.
fn check_values(list: &[i64], from: Spot, kind: u8, w: usize, n: usize) -> Result<Spot, Refusal>
    requires { Stands list.now from × Ranges kind w }
    ensures { Weighs list.now from.q (repeat n (write_value kind w) (drop from.p list.now)) result }
{
    let mut spot = from;
    for _ in 0..n {
        spot = check_value(list, spot, kind, w)?;
    }
    Ok(spot)
}

// The count of a variable array, in w bytes, and the two places after it.
fn count_of(list: &[i64], from: Spot, w: usize) -> Result<(usize, Spot), Refusal>
    requires { Stands list.now from × (Wide w × (w ≤ 7)) }
    ensures { Tells list.now from.q (write_count w (drop from.p list.now)) result }
{
    if from.p == list.len() {
        return Err(Refusal::EndsInside);
    }
    let z = list[from.p];
    if below_of(values_of(lmcp::UNSIGNED_KIND, w), z) {
        let n = lmcp::size_of(z);
        let next = Spot {
            p: from.p + 1,
            q: from.q + w,
        };
        return Ok((n as usize, next));
    }
    Err(Refusal::OutOfRange)
}

// Whether a number is a type that may stand there.
fn typed_by(version: u64, declared: usize, z: i64) -> bool
    ensures { result ≡ typed_by_lem (pitsurv version) declared z }
{
    if z < 0 {
        return false;
    }
    lmcp::typed_in(version, declared, lmcp::size_of(z))
}

// The head of an object: its type, 0 for null, and the two places after it.
fn head_of(
    list: &[i64],
    from: Spot,
    version: u64,
    deep: usize,
    declared: usize,
) -> Result<(usize, Spot), Refusal>
    requires { Stands list.now from }
    ensures { Tells list.now from.q (write_head (pitsurv version) deep declared (drop from.p list.now)) result }
{
    if from.p == list.len() {
        return Err(Refusal::EndsInside);
    }
    let z = list[from.p];
    if below_of(1, z) {
        let next = Spot {
            p: from.p + 1,
            q: from.q + 1,
        };
        return Ok((0, next));
    }
    if deep == 0 {
        return Err(Refusal::TooDeep);
    }
    if typed_by(version, declared, z) {
        let n = lmcp::size_of(z);
        let next = Spot {
            p: from.p + 1,
            q: from.q + 15,
        };
        return Ok((n as usize, next));
    }
    Err(Refusal::UnknownType)
}

// A walk over the numbers of a list, by the table of its version.
#[derive(Drop)]
struct Walk<'a> {
    list: &'a [i64],
    packed: Packed,
}

impl Walk<'_> {
    // One field: row i of the table.
    #[cycle(walk)]
    fn check_row(&self, from: Spot, deep: usize, i: usize) -> Result<Spot, Refusal>
        requires { Stands self.now.list.now from × ((i < 20) × (i < length (rows_of (pitsurv self.now.packed.version)))) }
        ensures { Weighs self.now.list.now from.q (write_row self.now.packed.version deep i (drop from.p self.now.list.now)) result }
    {
        let w = self.packed.rows[i][lmcp::COUNT] as usize;
        let arg = self.packed.rows[i][lmcp::ARG] as usize;
        let code = self.packed.rows[i][lmcp::CODE];
        let kind = self.packed.rows[i][lmcp::KIND];
        if w == 0 {
            if code == lmcp::OBJECT_CODE {
                return self.check_object(from, deep, arg);
            }
            let n = self.packed.rows[i][lmcp::FIXED] as usize;
            if n == 1 {
                return check_value(self.list, from, kind, arg);
            }
            return check_values(self.list, from, kind, arg, n);
        }
        let (n, next) = count_of(self.list, from, w)?;
        if code == lmcp::OBJECT_CODE {
            return self.check_objects(next, deep, arg, n);
        }
        check_values(self.list, next, kind, arg, n)
    }

    // All fields of type t.
    #[cycle(walk)]
    #[inline(never)]
    fn check_fields(&self, from: Spot, deep: usize, t: usize) -> Result<Spot, Refusal>
        requires { Stands self.now.list.now from × (t < 8) }
        ensures { let v = self.now.packed.version in Weighs self.now.list.now from.q (write_fields v deep (fields_of (pitsurv v) t) (drop from.p self.now.list.now)) result }
    {
        let mut spot = from;
        let first = self.packed.rows[lmcp::BEGINS][t] as usize;
        let end = self.packed.rows[lmcp::ENDS][t] as usize;
        for i in first..end {
            spot = self.check_row(spot, deep, i)?;
        }
        Ok(spot)
    }

    // n objects of a declared type.
    #[cycle(walk)]
    fn check_objects(
        &self,
        from: Spot,
        deep: usize,
        declared: usize,
        n: usize,
    ) -> Result<Spot, Refusal>
        requires { Stands self.now.list.now from }
        ensures { Weighs self.now.list.now from.q (repeat n (write_object self.now.packed.version deep declared) (drop from.p self.now.list.now)) result }
    {
        let mut spot = from;
        for _ in 0..n {
            spot = self.check_object(spot, deep, declared)?;
        }
        Ok(spot)
    }

    // An object of a declared type, 0 for any, where objects may still nest so deep.
    #[cycle(walk)]
    fn check_object(&self, from: Spot, deep: usize, declared: usize) -> Result<Spot, Refusal>
        requires { Stands self.now.list.now from }
        ensures { Weighs self.now.list.now from.q (write_object self.now.packed.version deep declared (drop from.p self.now.list.now)) result }
    {
        let (t, next) = head_of(self.list, from, self.packed.version, deep, declared)?;
        if t == 0 {
            return Ok(next);
        }
        self.check_fields(next, deep - 1, t)
    }
}

// The root, which is no null: from the start of the list, to place 8 of the message.
fn check_root(list: &[i64], version: u64) -> Result<Spot, Refusal>
    ensures { Weighs list.now 8 (write_root version list.now) result }
{
    if list.len() == 0 {
        return Err(Refusal::EndsInside);
    }
    let z = list[0];
    if below_of(1, z) {
        return Err(Refusal::NotABool);
    }
    let walk = Walk {
        list,
        packed: Packed::of(version),
    };
    walk.check_object(Spot { p: 0, q: 8 }, lmcp::DEEPEST, 0)
}

// How many bytes the message of a list has, of a version.
fn root_size(list: &[i64], version: u64) -> Result<usize, Refusal>
    ensures { SizeOf (λ calculate. write_message_lem (pitsurv version) calculate list.now) (made_told result) }
{
    let root = check_root(list, version)?;
    if root.p != list.len() {
        return Err(Refusal::LeftOver);
    }
    let size = root.q + 4;
    if lmcp::MAX_MESSAGE < size {
        return Err(Refusal::MessageLength);
    }
    Ok(size)
}

// How many bytes the message of a list has, which begins with its version, with its checksum calculated or left zero.
pub fn message_size(list: &[i64]) -> Result<usize, Refusal>
    ensures { SizeOf (λ calculate. write_list calculate list.now) (made_told result) }
{
    // A list without a version has ended before it.
    let ended = Refusal::EndsInside;
    if list.len() == 0 {
        return Err(ended);
    }
    let version = list[0];
    if is_version(version) {
        return root_size(&list[1..], lmcp::size_of(version));
    }
    Err(Refusal::OutOfRange)
}
