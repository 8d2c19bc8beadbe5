// A lent shadow: which function a case tries.
use crate::{paint_cases, place_cases, range_cases};
use cases::case::Case;

pub fn one(case: &Case<'_, impl Print>) -> Option<()> {
    match case.letter(0, 1) {
        b'l' => range_cases::leading(case),
        b's' => range_cases::signed_byte(case),
        b'n' => range_cases::poisoned(case),
        b'j' => range_cases::judge(case),
        b'f' => place_cases::in_free(case)?,
        b'p' => place_cases::in_part(case),
        b'w' => place_cases::in_longest(case),
        b'x' => place_cases::in_scattered(case),
        b'g' => paint_cases::granules_of(case),
        b't' => paint_cases::grant(case),
        b'r' => paint_cases::row(case),
        _ => return None,
    }
    Some(())
}
