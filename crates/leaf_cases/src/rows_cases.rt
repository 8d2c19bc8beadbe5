// The rows of a table: the lowest empty one, one number of a row, a row put, and what one pass finds for a release.
use blocks::rows;
use blocks::rows::Seen;
use cases::case::Case;
use cases::tables::{NUMBERS, ROWS, table_of};
use rules::Row;
use rules::limits::{MOST_REDZONE, QUARANTINED, ROW_NUMBERS};

// So many rows of a table as the second word says.
fn lent<'a>(case: &Case<'_, impl Print>, table: &'a [u32; NUMBERS]) -> Option<&'a [u32]> {
    let numbers = case.given::<usize>(1).checked_mul(ROW_NUMBERS)?;
    table.get(..numbers)
}

pub fn empty_row(case: &Case<'_, impl Print>) -> Option<()> {
    let table = table_of(case.from(2));
    let answered = rows::empty_row(lent(case, &table)?);
    case.outcome(case.same_found(answered, 6));
    Some(())
}

#[tactic(auto, unfolding(rules::specs::Table::rows))]
pub fn number(case: &Case<'_, impl Print>) {
    let table = table_of(case.from(1));
    let row = case.given(5);
    let k = case.given(6);
    let answered = (row < ROWS && k < ROW_NUMBERS).then(|| rows::number(&table, row, k));
    case.outcome(case.same_number(case.asked(answered, 0), 7));
}

#[tactic(auto, unfolding(rules::specs::Table::rows))]
pub fn put_row(case: &Case<'_, impl Print>) {
    let mut table = table_of(case.from(1));
    let row = case.given(5);
    let new = Row {
        start: 0xffff_ffff,
        size: 0xffff_fffe,
        state: QUARANTINED,
        turn: 9,
    };
    let put = (row < ROWS).then(|| rows::put_row(&mut table, row, new));
    case.asked(put, ());
    case.outcome(case.same_table(&table, 6));
}

fn same_seen(case: &Case<'_, impl Print>, seen: Seen) -> bool {
    case.same_found(seen.live, 8)
        & case.same_number(seen.again, 9)
        & case.same_number(seen.count as u64, 10)
        & case.same_number(seen.weight, 11)
        & case.same_found(seen.oldest, 12)
}

pub fn survey(case: &Case<'_, impl Print>) -> Option<()> {
    let table = table_of(case.from(2));
    let rows = lent(case, &table)?;
    let redzone = case.given(6);
    let address = case.given(7);
    let seen = (rows.len() <= NUMBERS && redzone <= MOST_REDZONE).then(|| rows::survey(
        rows, redzone, address,
    ));
    case.outcome(same_seen(case, case.asked(seen, Seen::default())));
    Some(())
}
