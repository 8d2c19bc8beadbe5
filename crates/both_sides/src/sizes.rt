// Sizes of a grant, from 0 to one more than fits, and what the redzone leaves of a shadow.
use crate::case::{self, Case};
use crate::feeds;
use crate::watched::Watched;
use cases::show;

fn grant(out: &impl Print, name: &str, mut watched: Watched<'_>, size: u32) {
    let answer = watched.grant(size);
    let left = watched.left();
    show::line(out, format_args!("{name}: {answer}, {left}"));
}

// Granules, redzone, size.
fn ask(case: Case<'_, impl Print>) -> Option<()> {
    let [granules, redzone, size, ..] = case.numbers;
    let mut shadow = [0x7e; 514];
    let mut table = [7u32; 8];
    let shadow = shadow.get_mut(..granules)?;
    let watched = Watched::open(shadow, &mut table, redzone, 16);
    grant(case.out, case.name, watched, u32::try_from(size).ok()?);
    Some(())
}

// 8 (S - 2R) bytes is the largest block; 2^32 - 1 bytes are 2^29 granules. The smallest shadow that takes one granule
// has 2R + 1. With R of 2 that is below 8, so there five and four granules are what a first block leaves of eight, its
// redzone shared.
pub fn run(out: &impl Print) {
    case::ask_each(
        out,
        ask,
        "grant of 0 bytes|16 2 0;\
            grant of 1 byte|16 2 1;\
            grant of 7 bytes|16 2 7;\
            grant of 8 bytes|16 2 8;\
            grant of 9 bytes|16 2 9;\
            grant of 15 bytes|16 2 15;\
            grant of 16 bytes|16 2 16;\
            grant of 17 bytes|16 2 17;\
            grant of 95 bytes|16 2 95;\
            grant of 96 bytes|16 2 96;\
            grant of 97 bytes|16 2 97;\
            grant of 2^32 - 8 bytes|16 2 4294967288;\
            grant of 2^32 - 1 bytes|16 2 4294967295;\
            S of 8, R of 2, grant of 32 bytes|8 2 32;\
            S of 8, R of 2, grant of 33 bytes|8 2 33;\
            S of 512, R of 256, grant of 1 byte|512 256 1;\
            S of 513, R of 256, grant of 8 bytes|513 256 8;\
            S of 513, R of 256, grant of 9 bytes|513 256 9;\
            S of 514, R of 256, grant of 9 bytes|514 256 9;\
            S of 8, R of 4, grant of 1 byte|8 4 1;\
            S of 9, R of 4, grant of 1 byte|9 4 1;",
    );
    feeds::ask_each(
        out,
        "S of 8, R of 2, five granules left|8 4 2 16 27|010000000800000000\n010000000100000000\n;\
            S of 8, R of 2, four granules left|8 4 2 16 27|010000001000000000\n010000000100000000\n;",
    );
}
