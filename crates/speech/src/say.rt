// What is said on standard error, whose handle is passed down.
use std::fmt::Display;
use std::io::Write;
use std::{fmt, io, str};

// That a write there fails has nowhere to be said.
pub fn text(err: &impl Print, text: impl Display + Drop) {
    let _ = err.print(text);
}

// "1 line", "2 lines".
#[derive(Clone, Copy)]
pub struct Count<'a>(pub u64, pub &'a str);

impl fmt::Display for Count<'_> {
    fn fmt<W: fmt::Write>(&self, f: &mut fmt::Formatter<W>) -> fmt::Result {
        let Count(count, noun) = *self;
        let plural = if count == 1 { "" } else { "s" };
        write!(f, "{count} {noun}{plural}")
    }
}

fn before<'a>(text: &'a str, mark: &str) -> &'a str {
    text.split_once(mark).map_or(text, |(front, _)| front)
}

// What failed, and why, in the system's own words, after which an error shows its number: "Broken pipe (os error 32)".
#[derive(Clone, Copy)]
pub struct Failure<'a>(pub &'a str, pub io::Error);

impl fmt::Display for Failure<'_> {
    fn fmt<W: fmt::Write>(&self, f: &mut fmt::Formatter<W>) -> fmt::Result {
        let Failure(what, error) = *self;
        let mut shown = [0u8; 256];
        let mut room = &mut shown[..];
        let _ = write!(room, "{error}");
        let words = before(str::from_utf8(&shown).unwrap_or_default(), "\0");
        let reason = before(words, " (os error ");
        write!(f, "{what}: {reason}")
    }
}
