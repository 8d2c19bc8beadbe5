// 24: sessions forged in one field at a time, on both sides of its limit, and buffers that are not the session's. Every
// later call is asked: a grant of 1, a release of address 38, an access of byte 0, the unfinished length, and a feed of
// a line feed. What is lent holds 7e and 7 throughout, so a session that fits is answered 05 (no row is empty), 07 (the
// row that starts at 7 is not held), 09 with 7e, and 00.
use crate::case::{self, Case};
use crate::watched::Watched;
use cases::show;
use rules::Session;

fn call(out: &impl Print, name: &str, mut watched: Watched<'_>) {
    let mut room = [b'.'; 13];
    let grant = watched.grant(1);
    let release = watched.release(56);
    let access = watched.access(0, 1);
    let unfinished = watched.unfinished();
    let feed = watched.feed(b"\n", &mut room);
    let left = watched.left();
    show::line(
        out,
        format_args!(
            "{name}: grant {grant}, release {release}, access {access}, unfinished {unfinished}, feed {feed}, {left}"
        ),
    );
}

// As many places as are given; the others are zero.
fn line_of(places: &str) -> [u8; 18] {
    let mut line = [0; 18];
    for (place, byte) in line.iter_mut().zip(places.bytes()) {
        *place = byte;
    }
    line
}

// Granules, rows, redzone, quarantine, unfinished length, granules and numbers lent; the line's places.
fn ask(case: Case<'_, impl Print>) -> Option<()> {
    let [
        granules,
        rows,
        redzone,
        quarantine,
        unfinished,
        bytes,
        numbers,
        ..
    ] = case.numbers;
    let session = Session {
        granules,
        rows,
        redzone,
        quarantine: u32::try_from(quarantine).ok()?,
        unfinished,
        line: line_of(case.rest),
    };
    let mut shadow = [0x7e; 65537];
    let mut table = [7u32; 4100];
    let shadow = shadow.get_mut(..bytes)?;
    let table = table.get_mut(..numbers)?;
    call(
        case.out,
        case.name,
        Watched {
            session,
            shadow,
            table,
        },
    );
    Some(())
}

// "A closed session is all zeros." Four times 2^62 + 1 is 4 in 64 bits. "Length 0 to 19; 18 places for its first bytes,
// unused ones zero." "Lent lengths not the session's": the unfinished length is asked with nothing lent.
pub fn run(out: &impl Print) {
    case::ask_each(
        out,
        ask,
        "closed session|0 0 0 0 0 8 4|;\
            closed session, nothing lent|0 0 0 0 0 0 0|;\
            session of 7 granules|7 1 2 16 0 7 4|;\
            session of 8 granules, 1 row, R of 2|8 1 2 16 0 8 4|;\
            session of 65,536 granules|65536 1 2 16 0 65536 4|;\
            session of 65,537 granules|65537 1 2 16 0 65537 4|;\
            session of 0 rows|8 0 2 16 0 8 0|;\
            session of 1,024 rows|8 1024 2 16 0 8 4096|;\
            session of 1,025 rows|8 1025 2 16 0 8 4100|;\
            session of 2^62 + 1 rows|8 4611686018427387905 2 16 0 8 4|;",
    );
    case::ask_each(
        out,
        ask,
        "session with R of 0|8 1 0 16 0 8 4|;\
            session with R of 1|8 1 1 16 0 8 4|;\
            session with R of 256|8 1 256 16 0 8 4|;\
            session with R of 257|8 1 257 16 0 8 4|;\
            session with Q of 0|8 1 2 0 0 8 4|;\
            session with Q of 2^32 - 1|8 1 2 4294967295 0 8 4|;",
    );
    case::ask_each(
        out,
        ask,
        "unfinished length 18|8 1 2 16 18 8 4|030000000000000001;\
            unfinished length 19|8 1 2 16 19 8 4|030000000000000001;\
            unfinished length 20|8 1 2 16 20 8 4|030000000000000001;\
            unfinished length 2^63|8 1 2 16 9223372036854775808 8 4|030000000000000001;\
            first place unused, not zero|8 1 2 16 0 8 4|3;\
            first place used, not zero|8 1 2 16 1 8 4|3;\
            last place unused, not zero|8 1 2 16 17 8 4|\x00\x00\x00\x00\x00\x00\x00\x00\x00\x00\x00\x00\x00\x00\x00\
            \x00\x003;\
            last place used, not zero|8 1 2 16 18 8 4|\x00\x00\x00\x00\x00\x00\x00\x00\x00\x00\x00\x00\x00\x00\x00\x00\
            \x003;\
            every place used, zero|8 1 2 16 18 8 4|;",
    );
    case::ask_each(
        out,
        ask,
        "one granule less lent|8 1 2 16 0 7 4|;\
            one granule more lent|8 1 2 16 0 9 4|;\
            two rows, one lent|8 2 2 16 0 8 4|;\
            two rows, two lent|8 2 2 16 0 8 8|;\
            two rows, three lent|8 2 2 16 0 8 12|;\
            one row, a number less lent|8 1 2 16 0 8 3|;\
            one row, a number more lent|8 1 2 16 0 8 5|;",
    );
}
