// Evictions: every turn lessened, the oldest row of the quarantine evicted, and evictions until the rest weighs no more
// than Q. Shadow and table are two parameters, here and above: lent in one struct, each function would owe two clauses
// more, that its fields still are the caller's slices.
#![tactic(auto)]

ghost use Rattle.std.specs.Prelude.{◌≡◌, ◌<◌};
ghost use Rattle.rules.specs.Table.{rows};
ghost use Rattle.rules.specs.Release.{settle};
ghost use Rattle.evictions.specs.Evictions.{pool, settled, Lessened, EvictedRow, EvictedOldest, Weighed};

use blocks::rows;
use rules::Row;
use rules::limits::{REDZONE_BYTE, ROW_NUMBERS, SIZE_COLUMN, START_COLUMN, TURN_COLUMN};

// What the quarantine weighs, and the row to evict next.
#[derive(Clone, Copy)]
pub struct Held {
    pub weight: u64,
    pub oldest: Option<usize>,
}

// Every turn above 0 lessened by one, in one pass that also finds the row to evict next.
#[tactic(auto, using(crate::proofs::Lessening::lessening), unfolding(rules::specs::Table::rows))]
pub fn lessen(table: &mut [u32]) -> Option<usize>
    ensures { Lessened table.old table.new result }
{
    let rows = table.len() / ROW_NUMBERS;
    let mut oldest = None;
    for row in 0..rows {
        let turn = rows::number(table, row, TURN_COLUMN).saturating_sub(1);
        rows::set_number(table, row, TURN_COLUMN, turn);
        oldest = rows::oldest_with(table, oldest, row);
    }
    oldest
}

// The row leaves: its granules fa, itself emptied, every other turn above 0 lessened by one.
#[tactic(auto, using(crate::proofs::Settling::evict_row_is), unfolding(rules::specs::Table::rows))]
pub fn evict(shadow: &mut [u8], table: &mut [u32], row: usize) -> Option<usize>
    requires { row < rows table.old }
    ensures { EvictedRow (pool shadow.old table.old) row
        (pool shadow.new table.new) result }
{
    let start = rows::number(table, row, START_COLUMN);
    let size = rows::number(table, row, SIZE_COLUMN);
    paint::row(shadow, start, size, REDZONE_BYTE);
    rows::put_row(table, row, Row::zero());
    lessen(table)
}

// The oldest row leaves, where one is quarantined.
#[tactic(auto, using(crate::proofs::Settling::one_evicted))]
fn evict_oldest(shadow: &mut [u8], table: &mut [u32], redzone: usize, held: Held) -> Held
    requires { Weighed redzone table.old held }
    ensures { EvictedOldest redzone (pool shadow.old table.old)
        (pool shadow.new table.new) result }
{
    let Some(row) = held.oldest else {
        return held;
    };
    let size = rows::number(table, row, SIZE_COLUMN);
    let weight = held.weight - rows::weight_of(redzone, size);
    let oldest = evict(shadow, table, row);
    Held { weight, oldest }
}

// While the weights are above the limit, the oldest is evicted; how often is not known before. Answers how many were.
#[tactic(auto, using(crate::proofs::Settling::all_evicted))]
pub fn settle(
    shadow: &mut [u8],
    table: &mut [u32],
    redzone: usize,
    quarantine: u32,
    mut held: Held,
) -> u32
    requires { Weighed redzone table.old held }
    ensures { settled shadow.new table.new result
        ≡ settle redzone quarantine (pool shadow.old table.old) }
{
    let limit = quarantine as u64;
    let mut evicted = 0;
    while limit < held.weight {
        held = evict_oldest(shadow, table, redzone, held);
        evicted += 1;
    }
    evicted
}
