// The paper's limits and magic bytes, each under one name, and the mark for no digit, which is ours.
// `specs/Limits.antt` has the same names for the definitions, and `of_the_paper` is proved to agree with it.
ghost use Rattle.std.specs.Prelude.{◌≡◌};
ghost use Rattle.rules.specs.Limits.{paper_limits};

// A granule, in bytes.
pub const GRANULE: usize = 8;

// S: the granules of the arena, and the bytes of its shadow.
pub const LEAST_GRANULES: usize = 8;

pub const MOST_GRANULES: usize = 65_536;

// The rows of the table.
pub const LEAST_ROWS: usize = 1;

pub const MOST_ROWS: usize = 1_024;

// The columns of the table, in the paper's order, and the numbers in a row.
pub const START_COLUMN: usize = 0;

pub const SIZE_COLUMN: usize = 1;

pub const STATE_COLUMN: usize = 2;

pub const TURN_COLUMN: usize = 3;

pub const ROW_NUMBERS: usize = 4;

// R, in granules.
pub const LEAST_REDZONE: usize = 2;

pub const MOST_REDZONE: usize = 256;

// Where each field of a frame ends: kind, A, B; and the length that stands for any longer line.
pub const FRAME_KIND_END: usize = 2;

pub const FRAME_A_END: usize = FRAME_KIND_END + 8;

pub const FRAME_DIGITS: usize = FRAME_A_END + 8;

pub const TOO_LONG: usize = 19;

// Where each field of an answer ends: status, kind, value.
pub const ANSWER_STATUS_END: usize = 2;

pub const ANSWER_KIND_END: usize = ANSWER_STATUS_END + 2;

pub const ANSWER_VALUE_END: usize = ANSWER_KIND_END + 8;

// An answer in the report, its line feed included.
pub const ANSWER_BYTES: usize = ANSWER_VALUE_END + 1;

// A row's state: numbers, since a lent table may hold any.
pub const EMPTY: u32 = 0;

pub const LIVE: u32 = 1;

pub const QUARANTINED: u32 = 2;

// The frame kinds, as a line's digits say them; what a line asks is a `Frame`.
pub const GRANT: u8 = 1;

pub const RELEASE: u8 = 2;

pub const READ: u8 = 3;

pub const WRITE: u8 = 4;

// Shadow bytes: redzone or room not held; released and quarantined.
pub const REDZONE_BYTE: u8 = 0xfa;

pub const RELEASED_BYTE: u8 = 0xfd;

// The kind of a byte outside the arena.
pub const OUTSIDE: u8 = 0xff;

pub const LINE_FEED: u8 = 0x0a;

// What stands for the value of a byte that is no hex digit, in a table of bytes alone.
pub const NO_DIGIT: u8 = 16;

// All of the above in one value, so that one proof ties them to the definitions.
#[derive(Clone, Copy)]
pub struct Limits {
    pub granule: usize,
    pub least_granules: usize,
    pub most_granules: usize,
    pub least_rows: usize,
    pub most_rows: usize,
    pub start_column: usize,
    pub size_column: usize,
    pub state_column: usize,
    pub turn_column: usize,
    pub row_numbers: usize,
    pub least_redzone: usize,
    pub most_redzone: usize,
    pub frame_kind_end: usize,
    pub frame_a_end: usize,
    pub frame_digits: usize,
    pub too_long: usize,
    pub answer_status_end: usize,
    pub answer_kind_end: usize,
    pub answer_value_end: usize,
    pub answer_bytes: usize,
    pub empty: u32,
    pub live: u32,
    pub quarantined: u32,
    pub grant: u8,
    pub release: u8,
    pub read: u8,
    pub write: u8,
    pub redzone_byte: u8,
    pub released_byte: u8,
    pub outside: u8,
    pub line_feed: u8,
    pub no_digit: u8,
}

pub fn of_the_paper() -> Limits
    ensures { result ≡ paper_limits }
{
    Limits {
        granule: GRANULE,
        least_granules: LEAST_GRANULES,
        most_granules: MOST_GRANULES,
        least_rows: LEAST_ROWS,
        most_rows: MOST_ROWS,
        start_column: START_COLUMN,
        size_column: SIZE_COLUMN,
        state_column: STATE_COLUMN,
        turn_column: TURN_COLUMN,
        row_numbers: ROW_NUMBERS,
        least_redzone: LEAST_REDZONE,
        most_redzone: MOST_REDZONE,
        frame_kind_end: FRAME_KIND_END,
        frame_a_end: FRAME_A_END,
        frame_digits: FRAME_DIGITS,
        too_long: TOO_LONG,
        answer_status_end: ANSWER_STATUS_END,
        answer_kind_end: ANSWER_KIND_END,
        answer_value_end: ANSWER_VALUE_END,
        answer_bytes: ANSWER_BYTES,
        empty: EMPTY,
        live: LIVE,
        quarantined: QUARANTINED,
        grant: GRANT,
        release: RELEASE,
        read: READ,
        write: WRITE,
        redzone_byte: REDZONE_BYTE,
        released_byte: RELEASED_BYTE,
        outside: OUTSIDE,
        line_feed: LINE_FEED,
        no_digit: NO_DIGIT,
    }
}
