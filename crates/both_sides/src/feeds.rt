// A pool opened in buffers of its own, and text fed to it.
use crate::case::{self, Case};
use crate::watched::Watched;
use cases::show;
use cases::tables::NUMBERS;
use rules::limits::ROW_NUMBERS;

// What a feed answered, and everything that it left.
pub fn feed(out: &impl Print, name: &str, mut watched: Watched<'_>, piece: &str, room: &mut [u8]) {
    let feed = watched.feed(piece.as_bytes(), room);
    let unfinished = watched.unfinished();
    let left = watched.left();
    show::line(
        out,
        format_args!("{name}: {feed}, unfinished {unfinished}, {left}"),
    );
}

// Granules, rows, redzone, quarantine, room; piece. The room is lent full of marks, so that a byte beyond those written
// shows.
fn ask(case: Case<'_, impl Print>) -> Option<()> {
    let [granules, rows, redzone, quarantine, room, ..] = case.numbers;
    let mut shadow = [0x7e; 16];
    let mut table = [7u32; NUMBERS];
    let mut report = [b'.'; 80];
    let shadow = shadow.get_mut(..granules)?;
    let table = table.get_mut(..rows.checked_mul(ROW_NUMBERS)?)?;
    let room = report.get_mut(..room)?;
    let quarantine = u32::try_from(quarantine).ok()?;
    let watched = Watched::open(shadow, table, redzone, quarantine);
    feed(case.out, case.name, watched, case.rest, room);
    Some(())
}

pub fn ask_each(out: &impl Print, cases: &str) {
    case::ask_each(out, ask, cases);
}
