// Frames in: a line is read into its fields, and the fields are given their meaning.
ghost use Rattle.std.specs.Prelude.{◌≡◌};
ghost use Rattle.rules.specs.Frames.{fields_of_digits, fields_of_line, with_zero, frame, frame_of_line};

use rules::limits::{FRAME_A_END, FRAME_DIGITS, FRAME_KIND_END, GRANT, READ, RELEASE, WRITE};
use rules::{Asked, Fields, Frame, Refusal};

// Kind, A and B.
#[tactic(auto, unfolding(rules::specs::Frames::fields_of_digits, rules::specs::Hex::read_field))]
fn fields_of_digits(line: [u8; 18]) -> Option<Fields>
    ensures { result ≡ fields_of_digits line }
{
    let kind = hexadecimal::number(&line[..FRAME_KIND_END])?;
    let a = hexadecimal::number(&line[FRAME_KIND_END..FRAME_A_END])?;
    let b = hexadecimal::number(&line[FRAME_A_END..FRAME_DIGITS])?;
    Some(Fields {
        kind: kind as u8,
        a: a as u32,
        b: b as u32,
    })
}

// The fields of a line of `length` bytes, whose first 18 are given: two fields of the session, which crosses to C.
#[tactic(auto, unfolding(rules::specs::Frames::fields_of_line))]
pub fn fields_of_line(length: usize, line: [u8; 18]) -> Option<Fields>
    ensures { result ≡ fields_of_line length line }
{
    if length != FRAME_DIGITS {
        return None;
    }
    fields_of_digits(line)
}

// A grant and a release have no B.
#[tactic(auto, unfolding(rules::specs::Frames::with_zero))]
fn with_zero(b: u32, frame: Frame) -> Asked
    ensures { result ≡ with_zero b frame }
{
    if b != 0 {
        return Err(Refusal::NotZero);
    }
    Ok(frame)
}

// What fields ask.
#[tactic(auto, unfolding(rules::specs::Frames::frame))]
pub fn frame(fields: Fields) -> Asked
    ensures { result ≡ frame fields }
{
    let Fields { kind, a, b } = fields;
    match kind {
        GRANT => with_zero(b, Frame::Grant { size: a }),
        RELEASE => with_zero(b, Frame::Release { address: a }),
        READ => Ok(Frame::Read {
            address: a,
            length: b,
        }),
        WRITE => Ok(Frame::Write {
            address: a,
            length: b,
        }),
        _ => Err(Refusal::BadKind),
    }
}

// What a line of `length` bytes asks, whose first 18 are given.
#[tactic(auto, unfolding(rules::specs::Frames::frame_of_line, rules::specs::Frames::asked))]
pub fn frame_of_line(length: usize, line: [u8; 18]) -> Asked
    ensures { result ≡ frame_of_line length line }
{
    let fields = fields_of_line(length, line).ok_or(Refusal::BadLine)?;
    frame(fields)
}
