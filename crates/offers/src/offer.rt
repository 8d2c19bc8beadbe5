// Offering a piece of the trace to the watcher until all of it is taken, the report written as it comes.
ghost use Rattle.std.specs.Prelude.{◌≡◌, ◌<◌, ◌≤◌, length, IfOk};
ghost use Rattle.offers.specs.Offer.{Kept, Leads, Taken, SameLengths};

use rules::limits::LINE_FEED;
use rules::{Fed, Session};
use speech::say::Failure;
use speech::words::Status;
use speech::{explain, say};
use std::fmt::Display;
use tally::Tally;

pub(crate) const UNWRITTEN: &str = "the report cannot be written";

// Where a replay stands.
#[derive(Clone, Copy)]
pub struct Run {
    pub session: Session,
    pub tally: Tally,
}

// An error ended the replay, and has been said, since only `said` makes one.
#[derive(Clone, Copy)]
pub struct Stopped(());

impl Stopped {
    pub fn said(err: &impl Print, words: impl Display + Drop) -> Stopped {
        say::text(err, format_args!("kinkhost: {words}\n"));
        Stopped(())
    }
}

// Where the report goes, where all else is said, and what of that is asked for.
#[derive(Drop)]
pub struct Streams<'a, O, E> {
    pub out: &'a O,
    pub err: &'a E,
    // a sentence for each line that is not done
    pub explain: bool,
    pub progress: bool,
}

// What the watcher is lent: the pool's shadow and table, and room for a report.
#[derive(Drop)]
pub struct Lent<'a> {
    pub shadow: &'a mut [u8],
    pub table: &'a mut [u32],
    pub room: &'a mut [u8],
}

pub fn begun(session: Session) -> Run {
    Run {
        session,
        tally: tally::none(),
    }
}

// How much is offered next. To explain a line, its bytes are looked at before its line feed is offered, alone.
fn part_end(left: &[u8], explain: bool) -> usize
    requires { 0 < length left.now }
    ensures { (0 < result) × (result ≤ length left.now) }
{
    if !explain {
        return left.len();
    }
    left.iter()
        .position(|byte| *byte == LINE_FEED)
        .map_or(left.len(), |end| end.max(1))
}

// What a feed answered of so many bytes: its report is written and counted. With it, how many bytes were taken.
fn after(
    streams: &Streams<'_, impl Print, impl Print>,
    run: Run,
    fed: Fed,
    offered: usize,
    room: &[u8],
) -> Result<(Run, usize), Stopped>
    ensures { IfOk result (λ r. Kept run fed offered room.now r.0 r.1) }
{
    // none of these can be, by the watcher's contract and the room that is lent
    if fed.status != 0 || fed.taken == 0 || fed.taken > offered || fed.wrote > room.len() {
        let status = Status(fed.status);
        let words = format_args!("the watcher does not take the trace, {status}");
        return Err(Stopped::said(streams.err, words));
    }
    let report = &room[..fed.wrote];
    let written = streams.out.write_all(report);
    written.map_err(|error| Stopped::said(streams.err, Failure(UNWRITTEN, error)))?;
    let next = Run {
        session: fed.session,
        tally: tally::with_report(run.tally, report),
    };
    Ok((next, fed.taken))
}

// A line feed that is offered alone has one answer, which the room begins with.
fn explained(
    streams: &Streams<'_, impl Print, impl Print>,
    line: u64,
    asked: Session,
    part: &[u8],
    room: &[u8],
) {
    if let (true, [LINE_FEED]) = (streams.explain, part) {
        explain::answered(streams.err, line, asked, room);
    }
}

// A part of the trace is offered once.
fn feed(
    streams: &Streams<'_, impl Print, impl Print>,
    lent: &mut Lent<'_>,
    run: Run,
    part: &[u8],
) -> Result<(Run, usize), Stopped>
    ensures taken { IfOk result (λ r. Taken run lent.old.shadow.now lent.old.table.now part.now r.0 r.1
        lent.new.shadow.now lent.new.table.now) }
    ensures same_shadow { lent.new.shadow.ghost_name ≡ lent.old.shadow.ghost_name }
    ensures same_table { lent.new.table.ghost_name ≡ lent.old.table.ghost_name }
    ensures same_room { lent.new.room.ghost_name ≡ lent.old.room.ghost_name }
    ensures lengths { SameLengths lent.old.shadow.now lent.old.table.now lent.old.room.now
        lent.new.shadow.now lent.new.table.now lent.new.room.now }
{
    let asked = run.session;
    let fed = watcher::feed(asked, lent.shadow, lent.table, part, lent.room);
    let (next, taken) = after(streams, run, fed, part.len(), lent.room)?;
    explained(streams, next.tally.lines, asked, part, lent.room);
    Ok((next, taken))
}

// All of a piece. Where all of it was written, session, shadow, table and tally are those of the rules over the piece.
pub fn all(
    streams: &Streams<'_, impl Print, impl Print>,
    lent: &mut Lent<'_>,
    run: Run,
    piece: &[u8],
) -> Result<Run, Stopped>
    ensures leads { IfOk result (λ r. Leads run lent.old.shadow.now lent.old.table.now piece.now r
        lent.new.shadow.now lent.new.table.now) }
    ensures same_shadow { lent.new.shadow.ghost_name ≡ lent.old.shadow.ghost_name }
    ensures same_table { lent.new.table.ghost_name ≡ lent.old.table.ghost_name }
    ensures same_room { lent.new.room.ghost_name ≡ lent.old.room.ghost_name }
    ensures lengths { SameLengths lent.old.shadow.now lent.old.table.now lent.old.room.now
        lent.new.shadow.now lent.new.table.now lent.new.room.now }
{
    let mut run = run;
    // no `for`: how much is taken is known only once a part was offered
    let mut left = piece;
    while !left.is_empty() {
        let end = part_end(left, streams.explain);
        let (next, taken) = feed(streams, lent, run, &left[..end])?;
        run = next;
        left = &left[taken..];
    }
    Ok(run)
}
