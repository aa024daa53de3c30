// The refusals of every reader, writer and call, each by the papers' number.
#![tactic(auto)]

ghost use Rattle.std.specs.Prelude.{◌≡◌};
ghost use Rattle.refusals.specs.Numbers.{number_of};

// Why something was not given. Its number is the papers', and docs/REFUSALS.md has a row for each.
#[derive(Clone, Copy, Debug, PartialEq, Eq)]
pub enum Refusal {
    TooShort = 1,
    NotLcm = 2,
    DatagramTooLong = 3,
    BadName = 4,
    FragmentCount = 5,
    PayloadTooLarge = 6,
    FragmentForm = 7,
    Disagrees = 8,
    WrongMemory = 9,
    DatagramSize = 10,
    TooManyFragments = 11,
    NoSuchDatagram = 12,
    NoRoom = 13,
    TooManySenders = 14,
    NotLmcp = 20,
    MessageLength = 21,
    Checksum = 22,
    NotABool = 23,
    UnknownType = 24,
    EndsInside = 25,
    TooDeep = 26,
    NotAscii = 27,
    LeftOver = 28,
    OutOfRange = 29,
    UnknownEdition = 40,
    NotShortest = 41,
    EntryTooLong = 42,
    LogCut = 43,
    IndexFull = 44,
    LimitTooLarge = 45,
    NotAnIndex = 46,
    AnotherLog = 47,
    PacketTooShort = 50,
    PacketLength = 51,
    PacketKind = 52,
    BlocksDoNotFill = 53,
    NoSuchMessage = 54,
    NoRoomForPacket = 55,
    TooManyTiles = 60,
    TooManyPits = 61,
    TooManyEntries = 62,
    BlockCut = 70,
    BlockKind = 71,
    LastBelowFirst = 72,
    BadBitmap = 73,
    Padding = 74,
    DoesNotRise = 75,
    NoRoomForBlocks = 76,
    BlocksTooLong = 77,
}

impl Refusal {
    // The papers' number.
    pub fn number(self) -> u32
        ensures { result ≡ number_of self }
    {
        self as u32
    }
}

impl From<Refusal> for u32 {
    ghost from_gives = { λ r n. n ≡ number_of r };

    fn from(refusal: Refusal) -> u32 {
        refusal.number()
    }
}
