// The types that every layer shares: what a session holds, what a line asks, what is answered.
// Plain data, passed by value. What C sees is `#[repr(C)]` and holds numbers alone, since an enum
// does not cross to C; each enum has its numbers by a definition of `specs/`.
#![tactic(auto)]

pub mod limits;

ghost use Rattle.std.specs.Prelude.{◌≡◌};
ghost use Rattle.rules.specs.Table.{numbers, zero_row};

use limits::{EMPTY, ROW_NUMBERS};

// A session: passed by value and handed back, or lent and changed in place. A closed one is all zeros.
#[repr(C)]
#[derive(Clone, Copy)]
pub struct Session {
    // S, the granules of the arena and the bytes of its shadow
    pub granules: usize,
    pub rows: usize,
    // R, in granules
    pub redzone: usize,
    // Q, in bytes
    pub quarantine: u32,
    // the unfinished line's length, where 19 stands for 19 or more, and its first 18 bytes
    pub unfinished: usize,
    pub line: [u8; 18],
}

// A row of the table, whole.
#[derive(Clone, Copy)]
pub struct Row {
    // in granules
    pub start: u32,
    // in bytes
    pub size: u32,
    // a number, since a lent table may hold any: `Table.state`
    pub state: u32,
    pub turn: u32,
}

impl Row {
    // Its numbers, in the columns' order.
    pub fn numbers(self) -> [u32; ROW_NUMBERS]
        ensures { result ≡ numbers self }
    {
        [self.start, self.size, self.state, self.turn]
    }

    // The row of an empty table, and of a block that was evicted.
    pub fn zero() -> Row
        ensures { result ≡ zero_row }
    {
        Row {
            start: 0,
            size: 0,
            state: EMPTY,
            turn: 0,
        }
    }
}

// Why a line is refused, or what an access that is not good is answered: the rows 01 to 09 of the paper's table. Each
// area has refusals of its own, so that none can give another's.
#[derive(Clone, Copy, PartialEq, Eq)]
pub enum Refusal {
    // 01: the line is not 18 hex digits
    BadLine,
    // 02: the kind is not 01 to 04
    BadKind,
    // 03: B is not zero in a grant or a release
    NotZero,
    // 05: a grant, and no row is empty
    NoRow,
    // 06: a grant, and no start exists
    NoPlace,
    // 07: a release, and no live or quarantined row starts there
    NotHeld,
    // 08: a release, and no live row but a quarantined one starts there
    Released,
    // 09: an access that is not good, with its first bad byte and the kind of that byte
    NotGood { kind: u8, first: u32 },
}

// A line's answer: 00 with a value, or a refusal.
pub type Answer = Result<u32, Refusal>;

// Why a call is refused that is handed a session.
#[derive(Clone, Copy, PartialEq, Eq)]
pub enum CallRefusal {
    // 24: the session is closed, or does not fit what is lent or its limits
    BadSession,
}

// What such a call answers: as a line does, where it is not refused.
pub type CallAnswer = Result<Answer, CallRefusal>;

// Why an opening is refused.
#[derive(Clone, Copy, PartialEq, Eq)]
pub enum OpeningRefusal {
    // 21, 22, 23: such a shadow length, redzone or table length
    BadShadowLength,
    BadRedzone,
    BadTableLength,
}

// An opening's answer: 00, or why it is refused.
pub type OpeningAnswer = Result<(), OpeningRefusal>;

// Why an address has no shadow.
#[derive(Clone, Copy, PartialEq, Eq)]
pub enum MapRefusal {
    // 31, 32: an address beyond the map's last, or in its gap
    BeyondMap,
    InGap,
}

// A map's answer: 00, or why there is no shadow address.
pub type MapAnswer = Result<(), MapRefusal>;

// The answer of a line or of a call, in the paper's numbers.
#[repr(C)]
#[derive(Clone, Copy)]
pub struct Reply {
    pub status: u8,
    pub kind: u8,
    pub value: u32,
}

// The first bad byte of a range, and its kind, which is the shadow byte found there and may be any. The byte is a whole
// number that does not wrap, so it has 64 bits.
#[derive(Clone, Copy, PartialEq, Eq)]
pub struct BadByte {
    pub kind: u8,
    pub first: u64,
}

// What a range is found to be: good, or not by its first bad byte.
pub type Verdict = Result<(), BadByte>;

// A line's fields as they are written, before anything is made of them.
#[derive(Clone, Copy)]
pub struct Fields {
    pub kind: u8,
    pub a: u32,
    pub b: u32,
}

// What a line asks that is not refused.
#[derive(Clone, Copy, PartialEq, Eq)]
pub enum Frame {
    Grant { size: u32 },
    Release { address: u32 },
    Read { address: u32, length: u32 },
    Write { address: u32, length: u32 },
}

// What a line asks, or why it is refused.
pub type Asked = Result<Frame, Refusal>;

// What an opening hands back: the status 00, 21, 22 or 23, and a session, closed where refused.
#[repr(C)]
#[derive(Clone, Copy)]
pub struct Opened {
    pub session: Session,
    pub status: u8,
}

// What a feed hands back: the status 00 or 24, the session, and how many bytes were taken and written.
#[repr(C)]
#[derive(Clone, Copy)]
pub struct Fed {
    pub session: Session,
    pub status: u8,
    pub taken: usize,
    pub wrote: usize,
}

// What a feed of a lent session hands back: a `Fed` without the session, which lies where it was lent.
#[repr(C)]
#[derive(Clone, Copy)]
pub struct Counts {
    pub status: u8,
    pub taken: usize,
    pub wrote: usize,
}

// The regions of the published address maps.
#[derive(Clone, Copy)]
pub enum Region {
    Nowhere,
    LowMem,
    LowShadow,
    ShadowGap,
    HighShadow,
    HighMem,
}

// A published map: what is added to an address / 8, and the last address of each region, in the
// regions' order.
#[derive(Clone, Copy)]
pub struct Map {
    pub offset: u64,
    pub low_mem: u64,
    pub low_shadow: u64,
    pub shadow_gap: u64,
    pub high_shadow: u64,
    pub high_mem: u64,
}

// What a map hands back: the status 00, 31 or 32, the region's number, and the shadow address.
#[repr(C)]
#[derive(Clone, Copy)]
pub struct Mapped {
    pub status: u8,
    pub region: u8,
    pub shadow: u64,
}
