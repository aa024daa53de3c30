// Survey messages: the message table of series PITSURV.
#![tactic(auto)]

ghost use Rattle.std.specs.Prelude.{◌≡◌, ◌-◌, ◌*◌, ◌^◌, ◌<◌, min, get_or};
ghost use Rattle.std.specs.Int.Signed.{mag};
ghost use Rattle.lmcp.specs.Table.{pitsurv, rows_of, starts_of, nothing};
ghost use Rattle.lmcp.specs.Packed.{packed_of};
ghost use Rattle.lmcp.specs.InsidePacked.{cell};
ghost use Rattle.lmcp.specs.Read.{typed};

// The longest whole message, in bytes.
pub const MAX_MESSAGE: usize = 1048576;

// The deepest object; the root has depth 1.
pub const DEEPEST: usize = 16;

// The first four bytes of a message.
pub const MAGIC: [u8; 4] = *b"LMCP";

// The series of every object: "PITSURV" and a zero byte.
pub const SERIES: u64 = 0x5049545355525600;

// One field of a type: the bytes of its count (0: it has none, but `fixed` elements), the kind of its elements, and their bytes
// or, of objects, the declared type (0: any).
#[derive(Clone, Copy)]
pub struct Row {
    pub count: usize,
    pub fixed: usize,
    pub kind: u8,
    pub arg: usize,
}

pub const UNSIGNED_KIND: u8 = 0;

pub const SIGNED_KIND: u8 = 1;

pub const BOOL_KIND: u8 = 2;

pub const CHAR_KIND: u8 = 3;

pub const OBJECT_KIND: u8 = 4;

// Where a walk stands: its place in what it reads, and its place in what it writes.
#[derive(Clone, Copy)]
pub struct Spot {
    pub p: usize,
    pub q: usize,
}

// What stands past the last row.
const NOTHING: Row = Row {
    count: 0,
    fixed: 0,
    kind: UNSIGNED_KIND,
    arg: 0,
};

// How many types there are, null among them.
const TYPES: u64 = 8;

// ---- the table as bytes: made once a message and lent to the walks

// A row has eight bytes. The first four are its field: the bytes of the count (0: none), the elements where there is no count, their
// kind, and their bytes or, of objects, the declared type (0: any).
pub const COUNT: usize = 0;

pub const FIXED: usize = 1;

pub const KIND: usize = 2;

pub const ARG: usize = 3;

// A run is plain numbers in a row, up to and with a bool where one ends it. Before that bool nothing but 25 can be wrong, so that one test
// of the length answers for all of it. The bytes of the run that begins with the row (0: none does), its rows (1 where there is none), and
// whether a bool ends it.
pub const RUN_BYTES: usize = 4;

pub const RUN_ROWS: usize = 5;

pub const RUN_BOOL: usize = 6;

// Kind and bytes in one number.
pub const CODE: usize = 7;

pub const BYTE_CODE: u8 = 0;

pub const UINT16_CODE: u8 = 1;

pub const UINT32_CODE: u8 = 2;

pub const INT16_CODE: u8 = 3;

pub const INT32_CODE: u8 = 4;

pub const INT64_CODE: u8 = 5;

pub const OBJECT_CODE: u8 = 6;

const NO_COUNT: u8 = 0;

const NO_RUN: u8 = 0;

const NO_BOOL: u8 = 0;

const A_BOOL: u8 = 1;

// Declared types.
const ANY_TYPE: u8 = 0;

const PLACE_TYPE: u8 = 2;

const TILE_HEAD_TYPE: u8 = 3;

const PIT_MARK_TYPE: u8 = 4;

// 2 Place: lat, lon, height
const LAT: [u8; 8] = [NO_COUNT, 1, SIGNED_KIND, 4, 10, 3, NO_BOOL, INT32_CODE];

const LON: [u8; 8] = [NO_COUNT, 1, SIGNED_KIND, 4, 6, 2, NO_BOOL, INT32_CODE];

const HEIGHT: [u8; 8] = [NO_COUNT, 1, SIGNED_KIND, 2, 2, 1, NO_BOOL, INT16_CODE];

// 3 TileHead: tile, column, row, corner
const TILE: [u8; 8] = [NO_COUNT, 1, UNSIGNED_KIND, 4, 8, 3, NO_BOOL, UINT32_CODE];

const COLUMN: [u8; 8] = [NO_COUNT, 1, UNSIGNED_KIND, 2, 4, 2, NO_BOOL, UINT16_CODE];

const ROW: [u8; 8] = [NO_COUNT, 1, UNSIGNED_KIND, 2, 2, 1, NO_BOOL, UINT16_CODE];

const CORNER: [u8; 8] = [
    NO_COUNT,
    1,
    OBJECT_KIND,
    PLACE_TYPE,
    NO_RUN,
    1,
    NO_BOOL,
    OBJECT_CODE,
];

// 4 PitMark: pit, sure, at; in version 2 depth, in centimetres
const PIT: [u8; 8] = [NO_COUNT, 1, UNSIGNED_KIND, 4, 5, 2, A_BOOL, UINT32_CODE];

const SURE: [u8; 8] = [NO_COUNT, 1, BOOL_KIND, 1, 1, 1, A_BOOL, BYTE_CODE];

const AT: [u8; 8] = [
    NO_COUNT,
    1,
    OBJECT_KIND,
    PLACE_TYPE,
    NO_RUN,
    1,
    NO_BOOL,
    OBJECT_CODE,
];

const DEPTH: [u8; 8] = [NO_COUNT, 1, SIGNED_KIND, 2, 2, 1, NO_BOOL, INT16_CODE];

// 5 PitList: tile, pits, whose count has 2 bytes; in version 2 it has 4
const TILE_OF_PITS: [u8; 8] = [NO_COUNT, 1, UNSIGNED_KIND, 4, 4, 1, NO_BOOL, UINT32_CODE];

const PITS: [u8; 8] = [
    2,
    0,
    OBJECT_KIND,
    PIT_MARK_TYPE,
    NO_RUN,
    1,
    NO_BOOL,
    OBJECT_CODE,
];

const MANY_PITS: [u8; 8] = [
    4,
    0,
    OBJECT_KIND,
    PIT_MARK_TYPE,
    NO_RUN,
    1,
    NO_BOOL,
    OBJECT_CODE,
];

// 6 Note: text, about
const TEXT: [u8; 8] = [2, 0, CHAR_KIND, 1, NO_RUN, 1, NO_BOOL, BYTE_CODE];

const ABOUT: [u8; 8] = [
    NO_COUNT,
    1,
    OBJECT_KIND,
    ANY_TYPE,
    NO_RUN,
    1,
    NO_BOOL,
    OBJECT_CODE,
];

// 7 Frame: camera; stamp, a real64, which is the signed number with its bits; tilt, a real32, which is its bits; tick, head
const CAMERA: [u8; 8] = [NO_COUNT, 4, UNSIGNED_KIND, 1, 24, 4, NO_BOOL, BYTE_CODE];

const STAMP: [u8; 8] = [NO_COUNT, 1, SIGNED_KIND, 8, 20, 3, NO_BOOL, INT64_CODE];

const TILT: [u8; 8] = [NO_COUNT, 1, UNSIGNED_KIND, 4, 12, 2, NO_BOOL, UINT32_CODE];

const TICK: [u8; 8] = [NO_COUNT, 1, SIGNED_KIND, 8, 8, 1, NO_BOOL, INT64_CODE];

const HEAD: [u8; 8] = [
    NO_COUNT,
    1,
    OBJECT_KIND,
    TILE_HEAD_TYPE,
    NO_RUN,
    1,
    NO_BOOL,
    OBJECT_CODE,
];

// What stands past the last row of version 1, which has one less.
const NO_FIELD: [u8; 8] = [0, 0, 0, 0, 0, 0, 0, 0];

// Behind the rows: the row with which each type begins, from type 0 on, which is null, and the row after its last.
pub const BEGINS: usize = 20;

pub const ENDS: usize = 21;

const FIRST: [[u8; 8]; 22] = [
    LAT,
    LON,
    HEIGHT,
    TILE,
    COLUMN,
    ROW,
    CORNER,
    PIT,
    SURE,
    AT,
    TILE_OF_PITS,
    PITS,
    TEXT,
    ABOUT,
    CAMERA,
    STAMP,
    TILT,
    TICK,
    HEAD,
    NO_FIELD,
    [0, 0, 0, 3, 7, 10, 12, 14],
    [0, 0, 3, 7, 10, 12, 14, 19],
];

const SECOND: [[u8; 8]; 22] = [
    LAT,
    LON,
    HEIGHT,
    TILE,
    COLUMN,
    ROW,
    CORNER,
    PIT,
    SURE,
    AT,
    DEPTH,
    TILE_OF_PITS,
    MANY_PITS,
    TEXT,
    ABOUT,
    CAMERA,
    STAMP,
    TILT,
    TICK,
    HEAD,
    [0, 0, 0, 3, 7, 11, 13, 15],
    [0, 0, 3, 7, 11, 13, 15, 20],
];

// The table of a version.
pub fn table(version: u64) -> [[u8; 8]; 22]
    ensures { result ≡ packed_of version }
{
    if version == 2 {
        return SECOND;
    }
    FIRST
}

// The table of a version, as the walks go by it.
#[derive(Drop)]
pub struct Packed {
    pub rows: [[u8; 8]; 22],
    pub version: u64,
    ghost packed: { rows ≡ packed_of version },
}

impl Packed {
    pub fn of(version: u64) -> Packed
        ensures { result.version ≡ version }
    {
        Packed {
            rows: table(version),
            version,
        }
    }
}

// A byte of a table. It stands in the four crates that walk the table too: a public function asks nothing of its caller, so one for all of them would
// test the row at each look-up, and every walk knows already that there is such a row.
fn entry(rows: &[[u8; 8]; 22], i: usize, k: usize) -> usize
    requires { (i < 22) × (k < 8) }
    ensures { result ≡ cell rows.now i k }
{
    wire::wide(rows[i][k]) as usize
}

// Row i of the table of a version.
pub fn row_at(version: u64, i: usize) -> Row
    ensures { result ≡ get_or (rows_of (pitsurv version)) i nothing }
{
    if i < BEGINS {
        let rows = table(version);
        return Row {
            count: entry(&rows, i, COUNT),
            fixed: entry(&rows, i, FIXED),
            kind: rows[i][KIND],
            arg: entry(&rows, i, ARG),
        };
    }
    NOTHING
}

// Where the rows of type t begin; one past the last type, where they all end.
pub fn start_of(version: u64, t: usize) -> usize
    ensures { result ≡ get_or (starts_of (pitsurv version)) t 0 }
{
    let rows = table(version);
    if t < 8 {
        return entry(&rows, BEGINS, t);
    }
    if t == 8 {
        return entry(&rows, ENDS, 7);
    }
    0
}

// Whether n is a type of the table, and the declared one unless any may stand there.
pub fn typed_in(version: u64, declared: usize, n: u64) -> bool
    ensures { result ≡ typed (pitsurv version) declared n }
{
    if n < 1 {
        return false;
    }
    if TYPES <= n {
        return false;
    }
    if declared == 0 {
        return true;
    }
    n as usize == declared
}

// The size of a number: n for n and for -(n + 1).
pub fn size_of(z: i64) -> u64
    ensures { result ≡ mag z }
{
    if z < 0 {
        let m = -1 - z;
        return m as u64;
    }
    z as u64
}

// 2^(8w - 1), for w up to 8.
const HALVES: [u64; 9] = [
    1,
    128,
    32768,
    8388608,
    2147483648,
    549755813888,
    140737488355328,
    36028797018963968,
    9223372036854775808,
];

// How many numbers of w bytes, at most 8, are not negative where they are signed.
pub fn half(w: usize) -> u64
    ensures { result ≡ 2 ^ (8 * min w 8 - 1) }
{
    HALVES[wire::least(w, 8)]
}
