// Frames out: each answer of the paper's table in numbers, and a line's as the bytes of a report.
use crate::lines_cases::letters_of;
use cases::case::Case;
use rules::limits::ANSWER_BYTES;
use rules::{Answer, CallRefusal, MapRefusal, OpeningRefusal, Refusal, Reply};

// A line's refusals without a kind or a value, by the number.
fn refusal_of(status: u64) -> Option<Refusal> {
    match status {
        1 => Some(Refusal::BadLine),
        2 => Some(Refusal::BadKind),
        3 => Some(Refusal::NotZero),
        5 => Some(Refusal::NoRow),
        6 => Some(Refusal::NoPlace),
        7 => Some(Refusal::NotHeld),
        8 => Some(Refusal::Released),
        _ => None,
    }
}

fn answer_of(case: &Case<'_, impl Print>) -> Answer {
    let status = case.number(1);
    let value = case.given(3);
    match status {
        0 => Ok(value),
        9 => Err(Refusal::NotGood {
            kind: case.given(2),
            first: value,
        }),
        _ => Err(case.asked(refusal_of(status), Refusal::BadLine)),
    }
}

// An opening's refusals.
fn opening_refusal_of(status: u64) -> Option<OpeningRefusal> {
    match status {
        21 => Some(OpeningRefusal::BadShadowLength),
        22 => Some(OpeningRefusal::BadRedzone),
        23 => Some(OpeningRefusal::BadTableLength),
        _ => None,
    }
}

// A map's.
fn map_refusal_of(status: u64) -> Option<MapRefusal> {
    match status {
        31 => Some(MapRefusal::BeyondMap),
        32 => Some(MapRefusal::InGap),
        _ => None,
    }
}

pub fn three(reply: Reply) -> [u64; 3] {
    [reply.status as u64, reply.kind as u64, reply.value as u64]
}

// The rows below 10 are a line's; from 21 on: an opening's, a later call's, a map's.
fn answered(case: &Case<'_, impl Print>) -> [u64; 3] {
    match case.number(1) {
        ..10 => three(answers::numbers_of(answer_of(case))),
        status @ ..24 => {
            let answer = case.asked(opening_refusal_of(status).map(Err), Ok(()));
            [answers::opening_status_of(answer) as u64, 0, 0]
        }
        24 => three(answers::call_numbers_of(Err(CallRefusal::BadSession))),
        status => {
            let answer = case.asked(map_refusal_of(status).map(Err), Ok(()));
            [maps::status_of(answer) as u64, 0, 0]
        }
    }
}

pub fn numbers_of(case: &Case<'_, impl Print>) {
    case.outcome(case.same_three(answered(case), [1, 2, 3]));
}

pub fn put_answer(case: &Case<'_, impl Print>) {
    let mut part = [0x7e; ANSWER_BYTES];
    answers::put_answer(&mut part, answer_of(case));
    case.outcome(case.same(&part, &letters_of(case, 4)));
}
