// The public calls. None of them trusts its caller: a session that is closed, forged or not of the lent buffers is
// answered 24, and every other input is judged by the rules. The session goes in by value and comes back by value, and
// the buffers are lent apart, as C lends them.
#![tactic(auto)]

ghost use Rattle.std.specs.Prelude.{◌≡◌};
ghost use Rattle.rules.specs.Calls.{open_with};
ghost use Rattle.watcher.specs.Calls.{fits_or_refused, opened_as};
ghost use Rattle.watcher.specs.Calls.{OpenCall, GrantCall, ReleaseCall, AccessCall, UnfinishedCall, FeedCall};

use blocks::rows;
use rules::limits::{REDZONE_BYTE, ROW_NUMBERS};
use rules::{CallAnswer, CallRefusal, Fed, Opened, OpeningRefusal, Session};

// 24 first, and it changes nothing.
#[tactic(auto, unfolding(crate::specs::Calls::fits_or_refused))]
fn fits(session: Session, shadow: &[u8], table: &[u32]) -> Result<(), CallRefusal>
    ensures { result ≡ fits_or_refused session shadow.now table.now }
{
    if !session::fits_lent(session, shadow, table) {
        return Err(CallRefusal::BadSession);
    }
    Ok(())
}

// The session of a pool opened in what is lent: refused 21, 22, 23 in that order, with nothing written; else the shadow
// is fa throughout, the table zeros, and the session fresh.
fn opened(
    shadow: &mut [u8],
    table: &mut [u32],
    redzone: usize,
    quarantine: u32,
) -> Result<Session, OpeningRefusal>
    ensures { opened_as result shadow.new table.new
        ≡ open_with shadow.old table.old redzone quarantine }
{
    let granules = shadow.len();
    let numbers = table.len();
    if !session::granules_within(granules) {
        return Err(OpeningRefusal::BadShadowLength);
    }
    if !session::redzone_within(redzone) {
        return Err(OpeningRefusal::BadRedzone);
    }
    if !session::table_length(numbers) {
        return Err(OpeningRefusal::BadTableLength);
    }
    paint::cover(shadow, REDZONE_BYTE);
    rows::clear(table);
    Ok(session::fresh(granules, numbers / ROW_NUMBERS, redzone, quarantine))
}

// What C is handed of it: the status, and the session, closed where refused.
pub fn open(shadow: &mut [u8], table: &mut [u32], redzone: usize, quarantine: u32) -> Opened
    ensures { OpenCall shadow.old table.old redzone quarantine
        result shadow.new table.new }
{
    match opened(shadow, table, redzone, quarantine) {
        Ok(session) => Opened {
            session,
            status: answers::opening_status_of(Ok(())),
        },
        Err(refusal) => Opened {
            session: session::closed(),
            status: answers::opening_status_of(Err(refusal)),
        },
    }
}

// As the frame 01 answers.
pub fn grant(session: Session, shadow: &mut [u8], table: &mut [u32], size: u32) -> CallAnswer
    ensures { GrantCall session shadow.old table.old size
        result shadow.new table.new }
{
    fits(session, shadow, table)?;
    Ok(pool::grant(session, shadow, table, size))
}

// As the frame 02 answers.
pub fn release(session: Session, shadow: &mut [u8], table: &mut [u32], address: u32) -> CallAnswer
    ensures { ReleaseCall session shadow.old table.old address
        result shadow.new table.new }
{
    fits(session, shadow, table)?;
    Ok(pool::release(session, shadow, table, address))
}

// As the frames 03 and 04 answer: reads and writes are judged alike.
pub fn access(
    session: Session,
    shadow: &[u8],
    table: &[u32],
    address: u32,
    length: u32,
) -> CallAnswer
    ensures { AccessCall session shadow.now table.now address length result }
{
    fits(session, shadow, table)?;
    Ok(pool::access(shadow, address, length))
}

// The length of the unfinished line, 0 to 19.
pub fn unfinished(session: Session) -> CallAnswer
    ensures { UnfinishedCall session result }
{
    if !session::within_limits(session) {
        return Err(CallRefusal::BadSession);
    }
    Ok(Ok(session.unfinished as u32))
}

// Bytes are taken in order until the piece ends, or the next byte is a line feed and fewer than 13 bytes of room are
// left; 24 gives the session back and zeros.
pub fn feed(
    session: Session,
    shadow: &mut [u8],
    table: &mut [u32],
    piece: &[u8],
    room: &mut [u8],
) -> Fed
    ensures { FeedCall session shadow.old table.old
        piece.now room.old
        result shadow.new table.new room.new }
{
    if let Err(refusal) = fits(session, shadow, table) {
        return Fed {
            session,
            status: answers::call_status_of(Err(refusal)),
            taken: 0,
            wrote: 0,
        };
    }
    trace::feed(session, shadow, table, piece, room)
}
