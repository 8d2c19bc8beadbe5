// Accesses at the arena's end and at the last address, each with lengths 0, 1, 2 and 2^32 - 1, and one that the case
// gives.
use crate::case::{self, Case};
use crate::watched;
use cases::print::Answered;
use cases::show;
use rules::limits::ROW_NUMBERS;

fn accesses(out: &impl Print, name: &str, shadow: &[u8], address: u32, length: u32) {
    let session = watched::fresh(shadow.len(), 1, 16);
    let table = [0u32; ROW_NUMBERS];
    let access = |length| Answered(watcher::access(session, shadow, &table, address, length));
    let none = access(0);
    let one = access(1);
    let two = access(2);
    let most = access(u32::MAX);
    let given = access(length);
    show::line(
        out,
        format_args!(
            "{name}: 0 bytes {none}, 1 byte {one}, 2 bytes {two}, 2^32 - 1 bytes {most}, {length} bytes {given}"
        ),
    );
}

// Address, length; shadow.
fn ask(case: Case<'_, impl Print>) -> Option<()> {
    let [address, length, ..] = case.numbers;
    let shadow = case::shadow_of(case.rest)?;
    let address = u32::try_from(address).ok()?;
    accesses(
        case.out,
        case.name,
        &shadow,
        address,
        u32::try_from(length).ok()?,
    );
    Some(())
}

// The largest arena has 524,288 bytes, 80000 in hex.
fn of_most(out: &impl Print) {
    let shadow = [0x00; 65536];
    accesses(out, "65,536 granules good, at 7fffe", &shadow, 0x7_fffe, 3);
    accesses(out, "65,536 granules good, at 80000", &shadow, 0x8_0000, 8);
}

// 8 granules are 64 bytes, so 3f is the last one and 40 one past it.
pub fn run(out: &impl Print) {
    case::ask_each(
        out,
        ask,
        "last byte good, at 0|0 64|0000000000000000;\
            last byte good, at 0|0 65|0000000000000000;\
            last byte good, at 1|1 63|0000000000000000;\
            last byte good, at 1|1 64|0000000000000000;\
            last byte good, at 3e|62 3|0000000000000000;\
            last byte good, at 3f|63 8|0000000000000000;\
            last byte good, at 40|64 8|0000000000000000;\
            last byte good, at ffffffff|4294967295 65|0000000000000000;\
            last byte bad, at 0|0 63|0000000000000007;\
            last byte bad, at 0|0 64|0000000000000007;\
            last byte bad, at 3e|62 3|0000000000000007;\
            last byte bad, at 3f|63 8|0000000000000007;\
            last byte bad, at 40|64 8|0000000000000007;\
            last granule bad, at 37|55 10|00000000000000fa;\
            last granule bad, at 3f|63 8|00000000000000fa;\
            last granule bad, at 40|64 8|00000000000000fa;",
    );
    of_most(out);
}
