// Rows: one, and 1,024; 05 comes before 06; a quarantined row is not empty, an evicted one is.
use crate::feeds;
use crate::watched::Watched;
use cases::show;
use rules::limits::{MOST_ROWS, ROW_NUMBERS, STATE_COLUMN};

const NUMBERS: usize = ROW_NUMBERS * MOST_ROWS;

const LAST_STATE: usize = NUMBERS - ROW_NUMBERS + STATE_COLUMN;

// Of 1,024 rows, 1,023 are live and the last one is empty, since its state is 0. The block goes to address 10.
fn most_rows(out: &impl Print) {
    let mut shadow = [0x7e; 16];
    let mut table = [7u32; NUMBERS];
    let opened = watcher::open(&mut shadow, &mut table, 2, 16);
    table.fill(1);
    table[LAST_STATE] = 0;
    let watched = Watched {
        session: opened.session,
        shadow: &mut shadow,
        table: &mut table,
    };
    grant_and_release(out, watched);
}

fn grant_and_release(out: &impl Print, mut watched: Watched<'_>) {
    let first = watched.grant(1);
    let second = watched.grant(1);
    let release = watched.release(16);
    let left = watched.left();
    show::line(
        out,
        format_args!(
            "1,024 rows, the last one empty: grant {first}, grant {second}, release {release}, {left}"
        ),
    );
}

pub fn run(out: &impl Print) {
    feeds::ask_each(
        out,
        "one row, a second grant|16 1 2 16 27|010000000100000000\n010000000100000000\n;\
            one row, no place|16 1 2 16 14|010000006100000000\n;\
            one row, neither row nor place|16 1 2 16 27|010000000100000000\n010000006100000000\n;\
            one row, a grant after a release|16 1 2 16 40|010000000100000000\n020000001000000000\n010000000100000000\n;\
            one row, a grant after an eviction|16 1 2 0 40|010000000100000000\n020000001000000000\n\
            010000000100000000\n;",
    );
    most_rows(out);
}
