// The quarantine: a row enters it, and a whole release, shadow and table together, lent apart as in `evictions`.
#![tactic(auto)]

ghost use Rattle.std.specs.Prelude.{◌≡◌};
ghost use Rattle.rules.specs.Grant.{acted};
ghost use Rattle.rules.specs.Release.{release};
ghost use Rattle.blocks.specs.Survey.{TableLent};
ghost use Rattle.evictions.specs.Evictions.{pool};
ghost use Rattle.quarantine.specs.Quarantine.{first_to_leave, BothIn, Entering, Entered};

use blocks::rows;
use blocks::rows::Seen;
use evictions::Held;
use rules::limits::{
    QUARANTINED, RELEASED_BYTE, SIZE_COLUMN, START_COLUMN, STATE_COLUMN, TURN_COLUMN,
};
use rules::{Answer, Refusal};

// Of a quarantined row and another, the one that leaves first: the lower turn, on equal turns the lower row.
#[tactic(auto, using(crate::proofs::Entering::leaves))]
fn first_to_leave(table: &[u32], row: usize, other: Option<usize>) -> Option<usize>
    requires { BothIn table.now row other }
    ensures { result ≡ first_to_leave table.now row other }
{
    let Some(second) = other else {
        return Some(row);
    };
    let turn = rows::number(table, row, TURN_COLUMN);
    let turn_of_second = rows::number(table, second, TURN_COLUMN);
    if (turn_of_second, second) < (turn, row) {
        return other;
    }
    Some(row)
}

// The row enters the quarantine: its granules fd, its turn the number of quarantined rows, itself counted;
// its other numbers stay.
#[tactic(auto, using(crate::proofs::Entering::entering), unfolding(rules::specs::Table::rows))]
pub fn quarantine_row(
    shadow: &mut [u8],
    table: &mut [u32],
    redzone: usize,
    row: usize,
    seen: Seen,
) -> Held
    requires { Entering redzone table.old row seen }
    ensures { Entered redzone (pool shadow.old table.old) row
        (pool shadow.new table.new) result }
{
    let start = rows::number(table, row, START_COLUMN);
    let size = rows::number(table, row, SIZE_COLUMN);
    let turn = seen.count as u32 + 1;
    let weight = seen.weight + rows::weight_of(redzone, size);
    paint::row(shadow, start, size, RELEASED_BYTE);
    rows::set_number(table, row, STATE_COLUMN, QUARANTINED);
    rows::set_number(table, row, TURN_COLUMN, turn);
    Held {
        weight,
        oldest: first_to_leave(table, row, seen.oldest),
    }
}

// A release of an address: address 0 is done, as in C; 08 where no live row but a quarantined one starts
// there, 07 where neither does; else the row is quarantined, and the value is how many are evicted.
#[tactic(auto, using(crate::proofs::Releasing::releasing), unfolding(blocks::specs::Survey::survey))]
pub fn release(
    shadow: &mut [u8],
    table: &mut [u32],
    redzone: usize,
    quarantine: u32,
    address: u32,
) -> Answer
    requires { TableLent redzone table.old }
    ensures { acted result shadow.new table.new
        ≡ release redzone quarantine shadow.old table.old address }
{
    if address == 0 {
        return Ok(0);
    }
    let seen = rows::survey(table, redzone, address);
    let refusal = if seen.again {
        Refusal::Released
    } else {
        Refusal::NotHeld
    };
    let row = seen.live.ok_or(refusal)?;
    let held = quarantine_row(shadow, table, redzone, row, seen);
    let evicted = evictions::settle(shadow, table, redzone, quarantine, held);
    Ok(evicted)
}
