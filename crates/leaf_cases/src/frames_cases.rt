// Text in and text out: which function a case tries.
use crate::{answers_cases, lines_cases};
use cases::case::Case;

pub fn one(case: &Case<'_, impl Print>) -> Option<()> {
    match case.letter(0, 1) {
        b'b' => lines_cases::one_digit(case),
        b'd' => lines_cases::digits(case),
        b'f' => lines_cases::frame_of_line(case),
        b'n' => answers_cases::numbers_of(case),
        b'w' => answers_cases::put_answer(case),
        _ => return None,
    }
    Some(())
}
