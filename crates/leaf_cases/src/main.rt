// Every function below the public calls on both sides of each of its limits. The cases are the lines of the file
// `stdin`, with what the paper says, worked by hand; a dot is a case that came out so.
#![tactic(auto)]

mod answers_cases;
mod blocks_cases;
mod frames_cases;
mod lines_cases;
mod maps_cases;
mod paint_cases;
mod place_cases;
mod range_cases;
mod release_cases;
mod rows_cases;
mod shadow_cases;

ghost use Rattle.std.specs.Prelude.{◌≤◌, length, IfOk};

use cases::case::Case;
use cases::show;
use std::io;
use std::io::Read;

// A case's first letter says what is lent or read: a shadow, blocks, frames or an address of a map. Nothing is what is
// not known, or lends more than there is.
fn one(case: &Case<'_, impl Print>) -> Option<()> {
    match case.letter(0, 0) {
        b's' => shadow_cases::one(case),
        b'b' => blocks_cases::one(case),
        b'f' => frames_cases::one(case),
        b'm' => maps_cases::one(case),
        _ => None,
    }
}

fn walk(out: &impl Print, text: &[u8]) {
    for line in text.split_inclusive(|byte| *byte == b'\n') {
        let line = line.strip_suffix(b"\n").unwrap_or(line);
        if let Some(case) = Case::of_line(out, line)
            && one(&case).is_none()
        {
            show::not_asked(out);
        }
    }
}

// Reads until the text is full or the input ends: no `for`, since a read may give any number of bytes.
fn read_full<'a>(input: &mut impl Read, text: &'a mut [u8]) -> io::Result<&'a [u8]>
    ensures { IfOk result (λ part. length part.now ≤ length text.old) }
{
    let mut count = 0;
    while count < text.len() {
        match input.read(&mut text[count..])? {
            0 => break,
            more => count += more,
        }
    }
    Ok(&text[..count])
}

fn main(rt: HostRuntime) -> io::Result<()> {
    let mut space = [0u8; 65536];
    let text = read_full(&mut rt.reader(), &mut space)?;
    walk(&rt, text);
    Ok(())
}
