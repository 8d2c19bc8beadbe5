// The quarantine: turns lessened, a row evicted, and whole releases, with answer, shadow and table compared each time.
use crate::answers_cases::three;
use cases::case::Case;
use cases::tables::{ROWS, table_of};
use rules::Answer;

pub fn lessen(case: &Case<'_, impl Print>) {
    let mut table = table_of(case.from(1));
    let next = evictions::lessen(&mut table);
    case.outcome(case.same_found(next, 5) & case.same_table(&table, 6));
}

#[tactic(auto, unfolding(rules::specs::Table::rows))]
pub fn evict(case: &Case<'_, impl Print>) {
    let mut shadow = case.number(1).to_be_bytes();
    let mut table = table_of(case.from(2));
    let row = case.given(6);
    let next = (row < ROWS).then(|| evictions::evict(&mut shadow, &mut table, row));
    case.outcome(
        case.same_found(case.asked(next, None), 7)
            & case.same_shadow(&shadow, 8)
            & case.same_table(&table, 9),
    );
}

// 00 and a count, 07 or 08 and 0, as the paper's table has them.
fn same_answer(case: &Case<'_, impl Print>, answer: Answer) -> bool {
    let expected = [case.number(8), 0, case.number(9)];
    case.same(&three(answers::numbers_of(answer)), &expected)
}

pub fn release(case: &Case<'_, impl Print>) {
    let mut shadow = case.number(1).to_be_bytes();
    let mut table = table_of(case.from(2));
    let answer = quarantine::release(&mut shadow, &mut table, 2, case.given(6), case.given(7));
    case.outcome(
        same_answer(case, answer) & case.same_shadow(&shadow, 10) & case.same_table(&table, 11),
    );
}
