// A trace: one finished line, and a piece byte by byte, for a session that has passed the check behind 24. What is lent
// is lent apart, as C lends it.
#![tactic(auto)]

ghost use Rattle.std.specs.Prelude.{◌≡◌};
ghost use Rattle.rules.specs.Feed.{finish};
ghost use Rattle.rules.specs.Watcher.{watcher, state_of};
ghost use Rattle.rules.specs.Calls.{Lent};
ghost use Rattle.pool.specs.Acting.{in_answers};
ghost use Rattle.trace.specs.Feed.{Finishing, ran, fed, fed_of};

use frames::lines;
use rules::limits::{ANSWER_BYTES, LINE_FEED};
use rules::{Answer, Asked, Fed, Frame, Session};

// What a line asks, its refusal an answer.
#[tactic(auto, unfolding(pool::specs::Acting::in_answers))]
fn in_answers(asked: Asked) -> Result<Frame, Answer>
    ensures { result ≡ in_answers asked }
{
    match asked {
        Ok(frame) => Ok(frame),
        Err(refusal) => Err(Err(refusal)),
    }
}

// A finished line is acted on and answered in the 13 bytes lent, and its session has an empty line.
pub fn finish(session: Session, shadow: &mut [u8], table: &mut [u32], part: &mut [u8]) -> Session
    requires { Finishing session shadow.old table.old part.old }
    ensures { ran result shadow.new table.new part.new
        ≡ finish watcher (state_of session shadow.old table.old) }
{
    let asked = lines::frame_of_line(session.unfinished, session.line);
    let answer = pool::act(session, shadow, table, in_answers(asked));
    answers::put_answer(part, answer);
    session::emptied(session)
}

// The room's bytes from `wrote` on are still as they were lent.
pub fn feed(
    session: Session,
    shadow: &mut [u8],
    table: &mut [u32],
    piece: &[u8],
    room: &mut [u8],
) -> Fed
    requires { Lent session shadow.old table.old }
    ensures { fed result shadow.new table.new room.new
        ≡ fed_of (state_of session shadow.old table.old)
        piece.now room.old }
{
    let status = answers::call_status_of(Ok(Ok(0)));
    let mut current = session;
    let mut taken = piece.len();
    let mut wrote = 0;
    for (at, &byte) in piece.iter().enumerate() {
        if byte != LINE_FEED {
            current = session::lengthened(current, byte);
            continue;
        }
        if room.len() - wrote < ANSWER_BYTES {
            taken = at;
            break;
        }
        // no `chunks_exact_mut`: of a part that it lends a proof knows the length alone
        let end = wrote + ANSWER_BYTES;
        current = finish(current, shadow, table, &mut room[wrote..end]);
        wrote = end;
    }
    Fed {
        session: current,
        status,
        taken,
        wrote,
    }
}
