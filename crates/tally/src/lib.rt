// What a report says in sum: its answers counted by number, the first line that was not done, and the verdict.
#![tactic(auto)]

ghost use Rattle.std.specs.Prelude.{◌≡◌};
ghost use Rattle.tally.specs.Tally.{none, status_at, counted, first_after, with_answer, with_report};
ghost use Rattle.tally.specs.Tally.{verdict};

use rules::limits::{ANSWER_BYTES, ANSWER_STATUS_END};

// A line that was not done: its number, from 1, and its answer's, where that is 00 to 09.
#[derive(Clone, Copy)]
pub struct NotDone {
    pub line: u64,
    pub status: Option<u8>,
}

#[derive(Clone, Copy)]
pub struct Tally {
    pub lines: u64,
    // of the numbers 00 to 09
    pub answers: [u64; 10],
    pub first: Option<NotDone>,
}

#[derive(Clone, Copy)]
pub enum Outcome {
    // every line was done, and none is left unfinished
    Pass,
    Fail,
}

pub fn none() -> Tally
    ensures { result ≡ none }
{
    Tally {
        lines: 0,
        answers: [0; 10],
        first: None,
    }
}

// The number of the answer that begins at `at`, if it is one of 00 to 09.
#[tactic(auto, unfolding(crate::specs::Tally::status_in, rules::specs::Hex::read_field))]
pub fn status_at(report: &[u8], at: usize) -> Option<u8>
    ensures { result ≡ status_at report.now at }
{
    let digits = report.get(at..)?.get(..ANSWER_STATUS_END)?;
    match hexadecimal::number(digits)? {
        status @ 0..10 => Some(status as u8),
        _ => None,
    }
}

#[tactic(auto, unfolding(crate::specs::Tally::counted, crate::specs::Tally::more))]
fn counted(counts: [u64; 10], status: Option<u8>) -> [u64; 10]
    ensures { result ≡ counted counts status }
{
    let mut next = counts;
    if let Some(status @ 0..10) = status {
        let at = status as usize;
        next[at] = next[at].saturating_add(1);
    }
    next
}

// The first line that was not done, once `line` has this answer.
#[tactic(auto, unfolding(crate::specs::Tally::first_after))]
fn first_after(first: Option<NotDone>, line: u64, status: Option<u8>) -> Option<NotDone>
    ensures { result ≡ first_after first line status }
{
    match (first, status) {
        (None, Some(0)) => None,
        (None, _) => Some(NotDone { line, status }),
        _ => first,
    }
}

// With an answer of this number.
#[tactic(auto, unfolding(crate::specs::Tally::with_answer, crate::specs::Tally::more))]
fn with_answer(tally: Tally, status: Option<u8>) -> Tally
    ensures { result ≡ with_answer tally status }
{
    let lines = tally.lines.saturating_add(1);
    Tally {
        lines,
        answers: counted(tally.answers, status),
        first: first_after(tally.first, lines, status),
    }
}

// With every answer of a part of the report.
#[tactic(auto, using(crate::proofs::Parts::with_report_none, crate::proofs::Parts::with_report_next))]
pub fn with_report(tally: Tally, report: &[u8]) -> Tally
    ensures { result ≡ with_report tally report.now }
{
    let mut counted = tally;
    for answer in report.chunks_exact(ANSWER_BYTES) {
        counted = with_answer(counted, status_at(answer, 0));
    }
    counted
}

#[tactic(auto, unfolding(crate::specs::Tally::verdict, crate::specs::Tally::outcome))]
pub fn verdict(tally: Tally, unfinished: u32) -> Outcome
    ensures { result ≡ verdict tally unfinished }
{
    match (tally.first, unfinished) {
        (None, 0) => Outcome::Pass,
        _ => Outcome::Fail,
    }
}
