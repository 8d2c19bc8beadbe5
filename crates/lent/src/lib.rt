// The call for a caller that keeps one session: the session is lent, and changed in place. It answers as the by-value
// call does, 24 among its answers, on which the session stays as it was.
#![tactic(auto)]

ghost use Rattle.lent.specs.Calls.{FeedInPlaceCall};

use rules::{Counts, Session};

// The session is taken apart, the by-value feed is called, and the fields of the session that it hands back are stored:
// the paper names this form.
pub fn feed_in_place(
    session: &mut Session,
    shadow: &mut [u8],
    table: &mut [u32],
    piece: &[u8],
    room: &mut [u8],
) -> Counts
    ensures { FeedInPlaceCall session.old shadow.old table.old
        piece.now room.old
        result session.new shadow.new table.new room.new }
{
    let line = session.line;
    let before = Session {
        granules: session.granules,
        rows: session.rows,
        redzone: session.redzone,
        quarantine: session.quarantine,
        unfinished: session.unfinished,
        line,
    };
    let fed = watcher::feed(before, shadow, table, piece, room);
    let after = fed.session;
    session.granules = after.granules;
    session.rows = after.rows;
    session.redzone = after.redzone;
    session.quarantine = after.quarantine;
    session.unfinished = after.unfinished;
    let line = after.line;
    session.line = line;
    Counts {
        status: fed.status,
        taken: fed.taken,
        wrote: fed.wrote,
    }
}
