// The arguments: nine decimal numbers.
use rules::limits::ANSWER_BYTES;
use std::fs::OpenOptions;
use std::io::Write;
use std::ops::RangeInclusive;
use std::rt::{Env, Files};
use std::{io, str};

#[derive(Clone, Copy)]
pub struct Options {
    pub granules: usize,
    pub redzone: usize,
    pub quarantine: u32,
    // of the table, four a row
    pub numbers: usize,
    pub piece: usize,
    pub room: usize,
    pub explain: bool,
    pub progress: bool,
}

// Digits alone, and a number of no more than 19 of them.
fn decimal(text: &[u8]) -> Option<u64> {
    let digits = str::from_utf8(text).ok()?;
    if digits.starts_with('+') {
        return None;
    }
    let number = digits.parse::<u64>().ok()?;
    (number < 10_000_000_000_000_000_000).then_some(number)
}

fn argument(env: &impl Env, i: usize) -> Option<u64> {
    let mut text = [0u8; 32];
    let length = env.arg(i, &mut text).ok()?;
    decimal(&text[..length])
}

fn between(env: &impl Env, i: usize, limits: RangeInclusive<u64>) -> Option<u64> {
    let number = argument(env, i)?;
    limits.contains(&number).then_some(number)
}

// Nothing where an argument is missing, is no number, or does not fit.
pub fn given(env: &impl Env) -> Option<Options> {
    let granules = argument(env, 1)?;
    let redzone = argument(env, 2)?;
    let quarantine = argument(env, 3)?;
    let rows = argument(env, 4)?;
    let piece = between(env, 5, 1..=65_536)?;
    // an answer's bytes at least, or a line feed would never be taken
    let room = between(env, 6, ANSWER_BYTES as u64..=65_536)?;
    let explain = between(env, 7, 0..=1)?;
    let progress = between(env, 8, 0..=1)?;
    between(env, 9, 0..=9)?;
    Some(Options {
        granules: granules as usize,
        redzone: redzone as usize,
        quarantine: u32::try_from(quarantine).ok()?,
        numbers: rows.min(1_025) as usize * 4,
        piece: piece as usize,
        room: room as usize,
        explain: explain == 1,
        progress: progress == 1,
    })
}

// The system's names for the descriptors: a table, which is plainer than a room to format them in and a text made of
// it.
const DESCRIPTORS: [&str; 10] = [
    "/dev/fd/0",
    "/dev/fd/1",
    "/dev/fd/2",
    "/dev/fd/3",
    "/dev/fd/4",
    "/dev/fd/5",
    "/dev/fd/6",
    "/dev/fd/7",
    "/dev/fd/8",
    "/dev/fd/9",
];

fn write(files: &impl Files, path: &str, verdict: u8) -> io::Result<()> {
    let mut file = OpenOptions::new().append(true).open(files, path)?;
    // one write of both bytes: a descriptor may be shared with others that write to it
    file.write_all(&[b'0' + verdict % 10, b'\n'])
}

// The verdict, to the descriptor that asked for it, which is the last argument; 0 asks for none. The exit status is 0
// whatever the verdict is.
pub fn tell(rt: &(impl Env + Print + Files), err: &impl Print, verdict: u8) {
    let _ = match argument(rt, 9).unwrap_or(0) % 10 {
        0 => Ok(()),
        1 => rt.println(verdict),
        2 => err.println(verdict),
        n => write(rt, DESCRIPTORS[n as usize], verdict),
    };
}
