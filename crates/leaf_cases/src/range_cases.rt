// The shadow byte and the range rule.
use cases::case::Case;
use cases::{show, tables};
use rules::{BadByte, Verdict};
use shadow::{byte, range};
use std::cmp::Ordering;

pub fn leading(case: &Case<'_, impl Print>) {
    let answered = byte::leading(case.given(1));
    case.outcome(case.same_number(answered, 2));
}

// "The byte is read as a signed byte": from 80 on it is 256 less.
pub fn signed_byte(case: &Case<'_, impl Print>) {
    for (value, expected) in [(0x00, 0), (0x7f, 127), (0x80, -128), (0xff, -1)] {
        let outcome = match byte::signed_byte(value).cmp(&expected) {
            Ordering::Less => " [got less]",
            Ordering::Equal => ".",
            Ordering::Greater => " [got more]",
        };
        show::words(case.out, outcome);
    }
}

pub fn poisoned(case: &Case<'_, impl Print>) {
    let answered = byte::poisoned(case.given(1));
    case.outcome(case.same_number(answered, 2));
}

// 00 and zeros for a good range, or 09, the kind and the first bad byte.
fn in_numbers(verdict: Verdict) -> [u64; 3] {
    match verdict {
        Ok(()) => [0, 0, 0],
        Err(BadByte { kind, first }) => [9, kind as u64, first],
    }
}

pub fn judge(case: &Case<'_, impl Print>) {
    let mut room = [0; 16];
    let shadow = tables::bytes_of(case.from(1), &mut room);
    let verdict = range::judge(shadow, case.given(2), case.given(3));
    case.outcome(case.same_three(in_numbers(verdict), [4, 5, 6]));
}
