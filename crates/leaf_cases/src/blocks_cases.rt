// A lent table: which function a case tries.
use crate::{release_cases, rows_cases};
use cases::case::Case;

pub fn one(case: &Case<'_, impl Print>) -> Option<()> {
    match case.letter(0, 1) {
        b'e' => rows_cases::empty_row(case)?,
        b'n' => rows_cases::number(case),
        b'p' => rows_cases::put_row(case),
        b's' => rows_cases::survey(case)?,
        b'l' => release_cases::lessen(case),
        b'v' => release_cases::evict(case),
        b'r' => release_cases::release(case),
        _ => return None,
    }
    Some(())
}
