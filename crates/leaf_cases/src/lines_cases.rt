// Frames in: digits on both sides of each range of hex digits, and lines of every kind and length.
use cases::case::Case;
use frames::lines;
use rules::{Asked, Frame};
use std::array;

fn says(case: &Case<'_, impl Print>, digits: &[u8]) {
    let answered = (digits.len() <= 16).then(|| hexadecimal::number(digits));
    case.outcome(case.same_found(case.asked(answered, None), 2));
}

pub fn one_digit(case: &Case<'_, impl Print>) {
    says(case, &[case.given(1)]);
}

// The byte that a letter stands for.
fn meant(letter: u8) -> u8 {
    match letter {
        b'R' => b'\r',
        b'N' => b'\n',
        b'Z' => 0,
        _ => letter,
    }
}

// The first 18 letters from a word on, or spaces.
pub fn letters_of(case: &Case<'_, impl Print>, word: usize) -> [u8; 18] {
    array::from_fn(|i| meant(case.letter(word, i)))
}

pub fn digits(case: &Case<'_, impl Print>) {
    let letters = letters_of(case, 1);
    let digits = letters.split(|letter| *letter == b' ').next();
    says(case, digits.unwrap_or_default());
}

// Kind, A and B of a frame; 00 and the status of a line that is refused.
fn in_numbers(asked: Asked) -> [u64; 3] {
    match asked {
        Ok(Frame::Grant { size }) => [1, size as u64, 0],
        Ok(Frame::Release { address }) => [2, address as u64, 0],
        Ok(Frame::Read { address, length }) => [3, address as u64, length as u64],
        Ok(Frame::Write { address, length }) => [4, address as u64, length as u64],
        Err(refusal) => [0, answers::numbers_of(Err(refusal)).status as u64, 0],
    }
}

pub fn frame_of_line(case: &Case<'_, impl Print>) {
    let asked = lines::frame_of_line(case.given(1), letters_of(case, 2));
    case.outcome(case.same_three(in_numbers(asked), [3, 4, 5]));
}
