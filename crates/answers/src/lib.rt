// Frames out: each answer in the paper's numbers, and a line's in the report's 13 bytes.
#![tactic(auto)]

ghost use Rattle.std.specs.Prelude.{◌≡◌, length};
ghost use Rattle.rules.specs.Limits.{answer_bytes};
ghost use Rattle.rules.specs.Answers.{reply, in_numbers, opening_status, call_in_numbers, call_status};
ghost use Rattle.rules.specs.Frames.{answer_line};

use rules::limits::{ANSWER_KIND_END, ANSWER_STATUS_END, ANSWER_VALUE_END, LINE_FEED};
use rules::{Answer, CallAnswer, CallRefusal, OpeningAnswer, OpeningRefusal, Refusal, Reply};

// The three numbers as C and a report have them.
fn reply(status: u8, kind: u8, value: u32) -> Reply
    ensures { result ≡ reply status kind value }
{
    Reply {
        status,
        kind,
        value,
    }
}

// A line's answer: the paper's table to 09, a row a case: number, kind, value.
#[tactic(auto, unfolding(rules::specs::Answers::in_numbers))]
pub fn numbers_of(answer: Answer) -> Reply
    ensures { result ≡ in_numbers answer }
{
    match answer {
        Ok(value) => reply(0, 0, value),
        Err(Refusal::BadLine) => reply(1, 0, 0),
        Err(Refusal::BadKind) => reply(2, 0, 0),
        Err(Refusal::NotZero) => reply(3, 0, 0),
        Err(Refusal::NoRow) => reply(5, 0, 0),
        Err(Refusal::NoPlace) => reply(6, 0, 0),
        Err(Refusal::NotHeld) => reply(7, 0, 0),
        Err(Refusal::Released) => reply(8, 0, 0),
        Err(Refusal::NotGood { kind, first }) => reply(9, kind, first),
    }
}

// An opening's number.
#[tactic(auto, unfolding(rules::specs::Answers::opening_status))]
pub fn opening_status_of(answer: OpeningAnswer) -> u8
    ensures { result ≡ opening_status answer }
{
    match answer {
        Ok(()) => 0,
        Err(OpeningRefusal::BadShadowLength) => 21,
        Err(OpeningRefusal::BadRedzone) => 22,
        Err(OpeningRefusal::BadTableLength) => 23,
    }
}

// Any later call's answer: as a line's, or 24.
#[tactic(auto, unfolding(rules::specs::Answers::call_in_numbers))]
pub fn call_numbers_of(answer: CallAnswer) -> Reply
    ensures { result ≡ call_in_numbers answer }
{
    match answer {
        Ok(line) => numbers_of(line),
        Err(CallRefusal::BadSession) => reply(24, 0, 0),
    }
}

// Its number alone.
#[tactic(auto, unfolding(rules::specs::Answers::call_status))]
pub fn call_status_of(answer: CallAnswer) -> u8
    ensures { result ≡ call_status answer }
{
    call_numbers_of(answer).status
}

// The answer's fields, and a line feed.
pub fn put_answer(part: &mut [u8], answer: Answer)
    requires { length part.old ≡ answer_bytes }
    ensures { part.new ≡ answer_line answer }
{
    let reply = numbers_of(answer);
    hexadecimal::put_digits(&mut part[..ANSWER_STATUS_END], reply.status as u64);
    hexadecimal::put_digits(
        &mut part[ANSWER_STATUS_END..ANSWER_KIND_END],
        reply.kind as u64,
    );
    hexadecimal::put_digits(
        &mut part[ANSWER_KIND_END..ANSWER_VALUE_END],
        reply.value as u64,
    );
    part[ANSWER_VALUE_END] = LINE_FEED;
}
