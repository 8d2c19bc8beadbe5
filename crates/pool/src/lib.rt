// The lent shadow and table together: a grant, a release, an access, and what a frame does. Each asks for a session
// that has passed the check behind 24. The two are lent apart, as in `evictions`.
#![tactic(auto)]

ghost use Rattle.std.specs.Prelude.{◌≤◌, ◌≡◌, length};
ghost use Rattle.rules.specs.Limits.{most_granules};
ghost use Rattle.rules.specs.Grant.{acted, counted, granted_row, grant};
ghost use Rattle.rules.specs.Release.{release};
ghost use Rattle.rules.specs.Watcher.{access};
ghost use Rattle.rules.specs.Calls.{Lent};
ghost use Rattle.pool.specs.Acting.{act_or_answer};

use blocks::rows;
use rules::limits::{GRANULE, LIVE};
use rules::{Answer, Frame, Refusal, Row, Session};
use shadow::range;

// A size of 0 counts as 1.
#[tactic(auto, unfolding(rules::specs::Grant::counted))]
fn counted(size: u32) -> u32
    ensures { result ≡ counted size }
{
    size.max(1)
}

// The row of a block of so many bytes, granted at a granule.
fn granted_row(place: u32, size: u32) -> Row
    ensures { result ≡ granted_row place size }
{
    Row {
        start: place,
        size,
        state: LIVE,
        turn: 0,
    }
}

// 05 where no row is empty, then 06 where no start exists; else the lowest place, painted, in the lowest empty row.
pub fn grant(session: Session, shadow: &mut [u8], table: &mut [u32], size: u32) -> Answer
    requires { Lent session shadow.old table.old }
    ensures { acted result shadow.new table.new
        ≡ grant session.redzone shadow.old table.old size }
{
    let row = rows::empty_row(table).ok_or(Refusal::NoRow)?;
    let asked = counted(size);
    let granules = paint::granules_of(asked);
    let place = places::place(shadow, session.redzone, granules).ok_or(Refusal::NoPlace)?;
    paint::grant(shadow, place, asked);
    rows::put_row(table, row, granted_row(place as u32, asked));
    Ok((GRANULE * place) as u32)
}

// The value is how many are evicted.
pub fn release(session: Session, shadow: &mut [u8], table: &mut [u32], address: u32) -> Answer
    requires { Lent session shadow.old table.old }
    ensures { acted result shadow.new table.new
        ≡ release session.redzone session.quarantine shadow.old table.old address }
{
    quarantine::release(shadow, table, session.redzone, session.quarantine, address)
}

// Reads and writes are judged alike. Not inlined, as `rows::survey`: its loop is as fast wherever it is called.
#[inline(never)]
#[tactic(auto, unfolding(rules::specs::Watcher::access, rules::specs::Watcher::of_verdict))]
pub fn access(shadow: &[u8], address: u32, bytes: u32) -> Answer
    requires { length shadow.now ≤ most_granules }
    ensures { result ≡ access shadow.now address bytes }
{
    match range::judge(shadow, address, bytes) {
        Ok(()) => Ok(0),
        // no `From`: that the byte has 32 bits is known here alone, by the shadow's length
        Err(bad) => Err(Refusal::NotGood {
            kind: bad.kind,
            first: bad.first as u32,
        }),
    }
}

// What a frame does; an answer in its place, such as a line's refusal, is given as it stands.
#[tactic(auto, unfolding(crate::specs::Acting::act_or_answer, rules::specs::Watcher::act))]
pub fn act(
    session: Session,
    shadow: &mut [u8],
    table: &mut [u32],
    asked: Result<Frame, Answer>,
) -> Answer
    requires { Lent session shadow.old table.old }
    ensures { acted result shadow.new table.new
        ≡ act_or_answer session shadow.old table.old asked }
{
    match asked {
        Ok(Frame::Grant { size }) => grant(session, shadow, table, size),
        Ok(Frame::Release { address }) => release(session, shadow, table, address),
        Ok(Frame::Read { address, length } | Frame::Write { address, length }) => {
            access(shadow, address, length)
        }
        Err(answer) => answer,
    }
}
