// A sentence for a line that was not done: its number, what it asked, what was wrong, and at which byte.
use crate::say;
use crate::say::Count;
use crate::words::{Kind, Status};
use frames::lines;
use rules::limits::{ANSWER_KIND_END, ANSWER_STATUS_END, ANSWER_VALUE_END, TOO_LONG};
use rules::{Frame, Session};
use std::fmt;

// Bytes as they were read or written, where one that cannot be printed is a dot.
#[derive(Clone, Copy)]
struct Seen<'a>(&'a [u8]);

impl fmt::Display for Seen<'_> {
    fn fmt<W: fmt::Write>(&self, f: &mut fmt::Formatter<W>) -> fmt::Result {
        for byte in self.0 {
            match *byte {
                b' '..=b'~' => f.write_char(char::from(*byte))?,
                _ => f.write_char('.')?,
            }
        }
        Ok(())
    }
}

// A line that asked nothing, as it stands; no more than 18 of its bytes are kept.
fn unread<W: fmt::Write>(f: &mut fmt::Formatter<W>, session: Session) -> fmt::Result {
    let length = session.unfinished;
    let line = session.line;
    let kept = Seen(&line[..length.min(18)]);
    if length < TOO_LONG {
        let bytes = Count(length as u64, "byte");
        return write!(f, "{bytes}, \"{kept}\"");
    }
    write!(f, "19 bytes or more, beginning \"{kept}\"")
}

fn access<W: fmt::Write>(
    f: &mut fmt::Formatter<W>,
    noun: &str,
    address: u32,
    length: u32,
) -> fmt::Result {
    let bytes = Count(length as u64, "byte");
    write!(f, "{noun} of {bytes} at address {address:08x}")
}

// What the line asked that the session holds, or the line itself where it asked nothing.
#[derive(Clone, Copy)]
struct Asked(Session);

impl fmt::Display for Asked {
    fn fmt<W: fmt::Write>(&self, f: &mut fmt::Formatter<W>) -> fmt::Result {
        let length = self.0.unfinished;
        let line = self.0.line;
        match lines::frame_of_line(length, line) {
            Ok(Frame::Grant { size }) => write!(f, "grant of {}", Count(size as u64, "byte")),
            Ok(Frame::Release { address }) => write!(f, "release of address {address:08x}"),
            Ok(Frame::Read { address, length }) => access(f, "read", address, length),
            Ok(Frame::Write { address, length }) => access(f, "write", address, length),
            Err(_) => unread(f, self.0),
        }
    }
}

// The first bad byte and its kind, from an answer's digits.
fn first_bad<W: fmt::Write>(f: &mut fmt::Formatter<W>, answer: &[u8]) -> fmt::Result {
    let Some(value) = answer.get(ANSWER_KIND_END..ANSWER_VALUE_END) else {
        return Ok(());
    };
    let digits = &answer[ANSWER_STATUS_END..ANSWER_KIND_END];
    let value = Seen(value);
    let kind = Seen(digits);
    write!(f, "not good: first bad byte {value}, kind {kind}: ")?;
    match hexadecimal::number(digits) {
        Some(kind) => write!(f, "{}", Kind((kind % 256) as u8)),
        None => Ok(()),
    }
}

// What was wrong, by an answer's number and its digits.
#[derive(Clone, Copy)]
struct Wrong<'a>(Status, &'a [u8]);

impl fmt::Display for Wrong<'_> {
    fn fmt<W: fmt::Write>(&self, f: &mut fmt::Formatter<W>) -> fmt::Result {
        match self.0 {
            Status(9) => first_bad(f, self.1),
            status => f.write_str(status.meaning()),
        }
    }
}

// Of the line that the session held when its line feed came, and its answer.
pub fn answered(err: &impl Print, number: u64, session: Session, answer: &[u8]) {
    let status = tally::status_at(answer, 0);
    if let Some(0) = status {
        return;
    }
    let status = Status::from(status);
    let asked = Asked(session);
    let wrong = Wrong(status, answer);
    say::text(
        err,
        format_args!("line {number}: {asked}: {status}, {wrong}\n"),
    );
}
