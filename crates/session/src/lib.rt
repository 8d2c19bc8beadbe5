// The session: its limits, the check behind 24, and its unfinished line.
#![tactic(auto)]

ghost use Rattle.std.specs.Prelude.{◌≡◌, leb};
ghost use Rattle.rules.specs.Limits.{between, least_granules, most_granules, least_rows, most_rows};
ghost use Rattle.rules.specs.Limits.{least_redzone, most_redzone, too_long};
ghost use Rattle.rules.specs.Feed.{emptied, lengthened};
ghost use Rattle.rules.specs.Calls.{closed, fresh, table_length, unused_zero, within_limits, fits_lent};

use rules::Session;
use rules::limits::{
    FRAME_DIGITS, LEAST_GRANULES, LEAST_REDZONE, LEAST_ROWS, MOST_GRANULES, MOST_REDZONE,
    MOST_ROWS, ROW_NUMBERS, TOO_LONG,
};

pub fn granules_within(granules: usize) -> bool
    ensures { result ≡ between least_granules most_granules granules }
{
    (LEAST_GRANULES..=MOST_GRANULES).contains(&granules)
}

fn rows_within(rows: usize) -> bool
    ensures { result ≡ between least_rows most_rows rows }
{
    (LEAST_ROWS..=MOST_ROWS).contains(&rows)
}

pub fn redzone_within(redzone: usize) -> bool
    ensures { result ≡ between least_redzone most_redzone redzone }
{
    (LEAST_REDZONE..=MOST_REDZONE).contains(&redzone)
}

// A table length is 4 to 4,096 and a multiple of 4.
#[tactic(auto, unfolding(rules::specs::Calls::table_length))]
pub fn table_length(numbers: usize) -> bool
    ensures { result ≡ table_length numbers }
{
    (ROW_NUMBERS * LEAST_ROWS..=ROW_NUMBERS * MOST_ROWS).contains(&numbers)
        && numbers % ROW_NUMBERS == 0
}

// A closed session is all zeros.
pub fn closed() -> Session
    ensures { result ≡ closed }
{
    fresh(0, 0, 0, 0)
}

pub fn fresh(granules: usize, rows: usize, redzone: usize, quarantine: u32) -> Session
    ensures { result ≡ fresh granules rows redzone quarantine }
{
    Session {
        granules,
        rows,
        redzone,
        quarantine,
        unfinished: 0,
        line: [0; 18],
    }
}

// The places from `used` on are zero: two fields of the session, which crosses to C.
#[tactic(auto, using(crate::proofs::Unused::unused))]
fn unused_zero(line: [u8; 18], used: usize) -> bool
    ensures { result ≡ unused_zero line used }
{
    for place in used..FRAME_DIGITS {
        if line[place] != 0 {
            return false;
        }
    }
    true
}

fn unfinished_within(unfinished: usize) -> bool
    ensures { result ≡ leb unfinished too_long }
{
    unfinished <= TOO_LONG
}

// Every field is within its limits; a closed session's are not.
#[tactic(auto, unfolding(rules::specs::Calls::within_limits))]
pub fn within_limits(session: Session) -> bool
    ensures { result ≡ within_limits session }
{
    granules_within(session.granules)
        && rows_within(session.rows)
        && redzone_within(session.redzone)
        && unfinished_within(session.unfinished)
        && unused_zero(session.line, session.unfinished)
}

// And the lent lengths are the session's. The two are lent apart, as C lends them.
pub fn fits_lent(session: Session, shadow: &[u8], table: &[u32]) -> bool
    ensures { result ≡ fits_lent session shadow.now table.now }
{
    within_limits(session)
        && shadow.len() == session.granules
        && table.len() == ROW_NUMBERS * session.rows
}

// The same session with no unfinished line.
#[tactic(auto, unfolding(rules::specs::Feed::emptied))]
pub fn emptied(mut session: Session) -> Session
    ensures { result ≡ emptied session }
{
    session.unfinished = 0;
    session.line = [0; 18];
    session
}

// The unfinished line with one byte more: its first 18 bytes are kept, and 19 stands for 19 or more.
#[tactic(auto, unfolding(rules::specs::Feed::lengthened))]
pub fn lengthened(mut session: Session, byte: u8) -> Session
    ensures { result ≡ lengthened session byte }
{
    if session.unfinished < FRAME_DIGITS {
        session.line[session.unfinished] = byte;
        session.unfinished += 1;
    } else {
        session.unfinished = TOO_LONG;
    }
    session
}
