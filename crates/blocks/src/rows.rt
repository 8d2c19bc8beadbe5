// Reading and setting rows, and the one pass over them that a release makes for itself.
ghost use Rattle.std.specs.Prelude.{◌≡◌, ◌+◌, ◌<◌, length, replicate};
ghost use Rattle.rules.specs.Table.{rows, column, set_number, put_row};
ghost use Rattle.rules.specs.Grant.{empty_row};
ghost use Rattle.rules.specs.Release.{weight, oldest};
ghost use Rattle.blocks.specs.Survey.{InRow, TableLent, SurveySoFar, OldestSoFar, surveyed, survey};

use rules::Row;
use rules::limits::{
    EMPTY, GRANULE, LIVE, QUARANTINED, ROW_NUMBERS, SIZE_COLUMN, START_COLUMN, STATE_COLUMN,
    TURN_COLUMN,
};

// What one pass over the rows finds: the lowest live row that starts at an address, whether a
// quarantined one does, how many are quarantined, what they weigh, and the one to evict.
#[derive(Clone, Copy, Default)]
pub struct Seen {
    pub live: Option<usize>,
    pub again: bool,
    pub count: usize,
    pub weight: u64,
    pub oldest: Option<usize>,
}

#[tactic(auto, unfolding(rules::specs::Table::column, rules::specs::Table::rows))]
pub fn number(table: &[u32], row: usize, k: usize) -> u32
    requires { InRow table.now row k }
    ensures { result ≡ column k table.now row }
{
    table[ROW_NUMBERS * row + k]
}

#[tactic(auto, unfolding(rules::specs::Table::rows))]
pub fn empty_row(table: &[u32]) -> Option<usize>
    ensures { result ≡ empty_row table.now }
{
    (0..table.len() / ROW_NUMBERS).find(|&row| number(table, row, STATE_COLUMN) == EMPTY)
}

#[tactic(auto, unfolding(rules::specs::Table::set_number, rules::specs::Table::rows))]
pub fn set_number(table: &mut [u32], row: usize, k: usize, value: u32)
    requires { InRow table.old row k }
    ensures { table.new ≡ set_number k table.old row value }
{
    table[ROW_NUMBERS * row + k] = value;
}

#[tactic(auto, using(rules::proofs::Put::put_lent), unfolding(rules::specs::Table::put_row, rules::specs::Table::rows))]
pub fn put_row(table: &mut [u32], row: usize, new: Row)
    requires { row < rows table.old }
    ensures { table.new ≡ put_row table.old row new }
{
    let start = ROW_NUMBERS * row;
    table[start..start + ROW_NUMBERS].copy_from_slice(&new.numbers());
}

// Every row is empty: zeros throughout.
pub fn clear(table: &mut [u32])
    ensures { table.new ≡ replicate (length table.old) 0 }
{
    table.fill(0);
}

// What a quarantined block weighs.
#[tactic(auto, using(rules::proofs::Release::weight_size))]
pub fn weight_of(redzone: usize, size: u32) -> u64
    ensures { result ≡ weight redzone size }
{
    size as u64
}

// The row to evict, of the rows so far and this one: the lowest turn, on equal turns the lower row.
#[tactic(auto, using(crate::proofs::Survey::oldest_next))]
pub fn oldest_with(table: &[u32], before: Option<usize>, row: usize) -> Option<usize>
    requires { OldestSoFar table.now before row }
    ensures { result ≡ oldest table.now (row + 1) }
{
    if number(table, row, STATE_COLUMN) != QUARANTINED {
        return before;
    }
    if let Some(other) = before
        && number(table, other, TURN_COLUMN) <= number(table, row, TURN_COLUMN)
    {
        return before;
    }
    Some(row)
}

// What was found in the rows before `row`, and in it.
#[tactic(auto, using(crate::proofs::Survey::survey_next), unfolding(rules::specs::Release::starts_at))]
fn with_row(table: &[u32], redzone: usize, address: u32, row: usize, mut seen: Seen) -> Seen
    requires { SurveySoFar redzone table.now address row seen }
    ensures { result ≡ surveyed redzone table.now address (row + 1) }
{
    let start = GRANULE as u64 * number(table, row, START_COLUMN) as u64;
    let here = start == address as u64;
    match number(table, row, STATE_COLUMN) {
        LIVE => seen.live = seen.live.or(here.then_some(row)),
        QUARANTINED => {
            seen.again |= here;
            seen.count += 1;
            seen.weight += weight_of(redzone, number(table, row, SIZE_COLUMN));
            seen.oldest = oldest_with(table, seen.oldest, row);
        }
        _ => {}
    }
    seen
}

// Not inlined: its loop is as fast wherever it is called.
#[inline(never)]
#[tactic(auto, using(crate::proofs::Survey::survey_walk), unfolding(rules::specs::Table::rows))]
pub fn survey(table: &[u32], redzone: usize, address: u32) -> Seen
    requires { TableLent redzone table.now }
    ensures { result ≡ survey redzone table.now address }
{
    let rows = table.len() / ROW_NUMBERS;
    let mut seen = Seen::default();
    for row in 0..rows {
        seen = with_row(table, redzone, address, row, seen);
    }
    seen
}
