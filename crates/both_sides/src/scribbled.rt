// Scribbled buffers: "the same rules apply to whatever is found". S = 8 and R = 2, with the shadow and four rows given.
use crate::case::{self, Case};
use crate::feeds;
use crate::watched::{self, Watched};
use cases::tables::{ROWS, table_of};

// Quarantine, room; shadow; rows; piece.
fn ask(case: Case<'_, impl Print>) -> Option<()> {
    let [quarantine, room, ..] = case.numbers;
    let (shadow, rest) = case.rest.split_once('|')?;
    let (rows, piece) = rest.split_once('|')?;
    let mut shadow = case::shadow_of(shadow)?;
    let mut table = table_of(rows.as_bytes());
    let mut report = [b'.'; 80];
    let room = report.get_mut(..room)?;
    let watched = Watched {
        session: watched::fresh(8, ROWS, u32::try_from(quarantine).ok()?),
        shadow: &mut shadow,
        table: &mut table,
    };
    feeds::feed(case.out, case.name, watched, piece, room);
    Some(())
}

// "A row reaching past the shadow paints only granules that exist"; the sum of ffffffff and 1 is more than any Q. "A
// state above 2 is neither empty nor held." "On equal turns the lower row leaves first"; an eviction lessens the turn
// of a row in state 3 too. "Values 08 to 7f are never written; if found, no byte is addressable"; only fa is free.
pub fn run(out: &impl Print) {
    case::ask_each(
        out,
        ask,
        "row past the end, kept|4294967295 14|fafa00fafdfafdfa|2F10 0000 0000 0000|020000001000000000\n;\
            row past the end, evicted|4294967294 14|fafa00fafdfafdfa|2F10 0000 0000 0000|020000001000000000\n;\
            row past the end, and one byte|4294967295 14|fafa00fafdfafdfa|2F10 4121 0000 0000|020000001000000000\n;\
            row that starts at the end|16 14|fafa00fafafafafa|8810 0000 0000 0000|020000004000000000\n;\
            state 3 in every row|16 27|fafafafafafafafa|2830 0030 5839 1231|010000000100000000\n\
            020000001000000000\n;\
            state 3, then state 0|16 14|fafafafafafafafa|0030 9909 0000 0000|010000000100000000\n;\
            equal turns of 1|16 14|fafa00fafdfafdfa|4821 6821 2810 0000|020000001000000000\n;\
            equal turns of 0|8 14|fafa00fafdfafdfa|4820 6820 2810 0000|020000001000000000\n;\
            a turn in state 3|0 14|fafa00fafdfafdfa|2810 5834 0000 0000|020000001000000000\n;",
    );
    case::ask_each(
        out,
        ask,
        "live and quarantined at one start|16 14|fafa00fafdfafdfa|2822 2810 0000 0000|020000001000000000\n;\
            two live at one start|16 14|fafa00fafdfafdfa|0000 2910 2810 0000|020000001000000000\n;\
            live at address 0|0 14|00fafafafafafafa|0810 0000 0000 0000|020000000000000000\n;\
            reads of 07, 08, 7f and 80|16 66|00087f8007000000|0000 0000 0000 0000|030000000700000002\n\
            030000001000000001\n030000001800000001\n030000002000000008\n030000000800000000\n;\
            a grant above 08|16 14|fafa08fafafafafa|0000 0000 0000 0000|010000000100000000\n;\
            no room beside 7f|16 14|fafafa7ffafafafa|0000 0000 0000 0000|010000000100000000\n;",
    );
}
