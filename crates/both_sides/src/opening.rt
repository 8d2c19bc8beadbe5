// Openings: 21 for the shadow's length, 22 for the redzone, 23 for the table's length, in that order. What is lent
// holds 7e and 7 throughout, so that a byte or a number that is written, or left, shows.
use crate::case::{self, Case};
use cases::print::{Handed, Left};
use cases::show;

// Granules, numbers, redzone, quarantine.
fn ask(case: Case<'_, impl Print>) -> Option<()> {
    let [granules, numbers, redzone, quarantine, ..] = case.numbers;
    let mut shadow = [0x7e; 65537];
    let mut table = [7u32; 4100];
    let shadow = shadow.get_mut(..granules)?;
    let table = table.get_mut(..numbers)?;
    let opened = watcher::open(shadow, table, redzone, u32::try_from(quarantine).ok()?);
    let status = opened.status;
    let session = Handed(opened.session);
    let left = Left(shadow, table);
    show::line(
        case.out,
        format_args!("{}: {status:02}, {session}, {left}", case.name),
    );
    Some(())
}

// "S from 8 to 65,536." "Table length not 4 to 4,096 or not a multiple of 4." "Redzone R in granules (2 to 256)",
// "quarantine limit Q in bytes (any 32-bit number)". Last: "checked in number order."
pub fn run(out: &impl Print) {
    case::ask_each(
        out,
        ask,
        "shadow of 0 granules|0 16 2 16;\
            shadow of 7 granules|7 16 2 16;\
            shadow of 8 granules|8 16 2 16;\
            shadow of 65,536 granules|65536 16 2 16;\
            shadow of 65,537 granules|65537 16 2 16;",
    );
    case::ask_each(
        out,
        ask,
        "table of 0 numbers|16 0 2 16;\
            table of 3 numbers|16 3 2 16;\
            table of 4 numbers|16 4 2 16;\
            table of 5 numbers|16 5 2 16;\
            table of 6 numbers|16 6 2 16;\
            table of 8 numbers|16 8 2 16;\
            table of 4,096 numbers|16 4096 2 16;\
            table of 4,097 numbers|16 4097 2 16;\
            table of 4,100 numbers|16 4100 2 16;",
    );
    case::ask_each(
        out,
        ask,
        "redzone of 0 granules|16 16 0 16;\
            redzone of 1 granule|16 16 1 16;\
            redzone of 2 granules|16 16 2 16;\
            redzone of 256 granules|16 16 256 16;\
            redzone of 257 granules|16 16 257 16;\
            redzone of 2^63 granules|16 16 9223372036854775808 16;\
            quarantine of 0 bytes|16 16 2 0;\
            quarantine of 2^32 - 1 bytes|16 16 2 4294967295;",
    );
    case::ask_each(
        out,
        ask,
        "shadow, redzone and table wrong|7 5 1 16;\
            shadow and redzone wrong|7 16 1 16;\
            shadow and table wrong|7 5 2 16;\
            redzone and table wrong|8 5 1 16;",
    );
}
