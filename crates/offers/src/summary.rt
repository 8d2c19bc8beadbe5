// What is said of a replay as it goes and at its end: lines, answers by number, the first line that was not done, and
// the verdict.
ghost use Rattle.std.specs.Prelude.{◌≡◌};
ghost use Rattle.offers.specs.Offer.{left, Ends, told};

use crate::offer::{Run, Stopped, Streams, UNWRITTEN};
use rules::Session;
use speech::say;
use speech::say::{Count, Failure};
use speech::words::Status;
use std::fs::OpenFile;
use std::os::unix::fs::FileTypeExt;
use std::rt::Files;
use std::{fs, io};
use tally::{Outcome, Tally};

// What the report is written to, by the system's name for it.
const REPORT: &str = "/dev/stdout";

// EIO, ENOSPC and EDQUOT, by number: the first has no `ErrorKind`, and one match of three numbers is plainer than two.
const INPUT_OUTPUT: i32 = 5;

const NO_SPACE: i32 = 28;

const OVER_QUOTA: i32 = 122;

fn by_number(err: &impl Print, counts: [u64; 10]) {
    for (number, count) in counts.iter().enumerate() {
        if *count != 0 {
            let status = Status(number as u8);
            let meaning = status.meaning();
            say::text(err, format_args!("  {status}: {count}, {meaning}\n"));
        }
    }
}

// The line that a reader looks for.
fn outcome(err: &impl Print, tally: Tally, left: u32) {
    match tally.first {
        Some(first) => {
            let line = first.line;
            let status = Status::from(first.status);
            say::text(
                err,
                format_args!("first line not done: {line}, answered {status}\n"),
            );
        }
        None if tally.lines != 0 => say::text(err, "every line was done\n"),
        None if left == 0 => say::text(err, "the trace is empty\n"),
        None => {}
    }
}

// The unfinished line's length, a number by the definition `left`: 19 stands for 19 or more, and for a session that
// cannot say, which none here is.
#[tactic(auto, unfolding(crate::specs::Offer::left))]
fn unfinished(session: Session) -> u32
    ensures { result ≡ left session }
{
    match watcher::unfinished(session) {
        Ok(Ok(length)) => length,
        _ => 19,
    }
}

// "An unfinished line is never acted on."
fn not_acted_on(err: &impl Print, length: u32) {
    if length == 0 {
        return;
    }
    let bytes = Count(length as u64, "byte");
    let more = if length == 19 { " or more" } else { "" };
    say::text(
        err,
        format_args!(
            "the trace ends in an unfinished line of {bytes}{more}, which was not acted on\n"
        ),
    );
}

// Each ten thousand lines, on one line of a terminal, over which the next words are written.
pub fn progress(streams: &Streams<'_, impl Print, impl Print>, run: Run, before: u64) {
    let now = run.tally.lines;
    if streams.progress && before / 10_000 < now / 10_000 {
        let lines = Count(now, "line");
        say::text(streams.err, format_args!("kinkhost: {lines}\r"));
    }
}

// Waits until the report has reached its file, since a disk may be found full only then. What is no file has nothing to
// reach.
fn reach(files: &impl Files) -> io::Result<()> {
    let kind = fs::metadata(files, REPORT)?.file_type();
    if kind.is_file() || kind.is_block_device() {
        return fs::open(files, REPORT)?.sync_all();
    }
    Ok(())
}

// Whether an error says that the file has lost some of the report. That there is no waiting for it says nothing.
fn is_lost(error: io::Error) -> bool {
    matches!(
        error.raw_os_error(),
        Some(INPUT_OUTPUT | NO_SPACE | OVER_QUOTA)
    )
}

// That the report has not reached its file is said.
fn reached(files: &impl Files, err: &impl Print) -> Result<(), Stopped> {
    match reach(files) {
        Err(error) if is_lost(error) => { Err(Stopped::said(err, Failure(UNWRITTEN, error))) }
        _ => Ok(()),
    }
}

// What is said at the end of a trace that was answered and written whole; of a replay that was stopped, all has been.
pub fn verdict(
    files: &impl Files,
    err: &impl Print,
    ran: Result<Run, Stopped>,
) -> Result<Outcome, Stopped>
    ensures { Ends ran result }
{
    let run = ran?;
    reached(files, err)?;
    let tally = run.tally;
    let left = unfinished(run.session);
    let lines = Count(tally.lines, "line");
    say::text(err, format_args!("kinkhost: {lines}\n"));
    by_number(err, tally.answers);
    not_acted_on(err, left);
    outcome(err, tally, left);
    Ok(tally::verdict(tally, left))
}

// 0: every line was done. 1: some line was not, or the last one is unfinished. 2: an error, which has been said.
pub fn told(ended: Result<Outcome, Stopped>) -> u8
    ensures { result ≡ told ended }
{
    match ended {
        Ok(Outcome::Pass) => 0,
        Ok(Outcome::Fail) => 1,
        Err(_) => 2,
    }
}
