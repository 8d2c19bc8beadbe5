// The paper's night through the public calls: fed whole, a byte at a time, and with room for one answer at a time, what
// was not taken offered again. Cutting changes nothing: the report, the buffers and the session come out as the paper
// has them.
#![tactic(auto)]

use cases::print::{Bytes, Handed, Rows};
use cases::show;
use rules::{Fed, Session};

const TRACE: &[u8] =
    b"010000000d00000000\n03000000100000000d\n030000001c00000002\n010000000100000000\n\
    020000001000000000\n030000001000000001\n020000001000000000\n020000003000000000\n\
    010000000800000000\n020000004800000000\n010000001800000000\n010000001000000000\n\
    040000001c00000008\n030000008000000001\n03ffffffff00000000\n020000001100000000\n";

// A feed whose part of the report is printed at once. What is lent is lent apart, as C lends it.
fn feed(
    out: &impl Print,
    session: Session,
    shadow: &mut [u8],
    table: &mut [u32],
    piece: &[u8],
    room: &mut [u8],
) -> Fed {
    let fed = watcher::feed(session, shadow, table, piece, room);
    match room.get(..fed.wrote) {
        Some(written) => show::bytes(out, written),
        None => show::not_asked(out),
    }
    fed
}

fn end(out: &impl Print, calls: usize, session: Session, shadow: &[u8], table: &[u32]) {
    let session = Handed(session);
    let shadow = Bytes(shadow);
    let rows = Rows(table);
    show::line(
        out,
        format_args!("calls {calls}, {session}, shadow {shadow}, {rows}"),
    );
}

// S = 16, R = 2, Q = 16, 4 rows. So many bytes are offered at a time, or what is left of the trace. No more calls are
// made than it has bytes: each has to take one.
fn replay(out: &impl Print, words: &str, most: usize, room: &mut [u8]) {
    show::line(out, words);
    let mut shadow = [0x7e; 16];
    let mut table = [7u32; 16];
    let opened = watcher::open(&mut shadow, &mut table, 2, 16);
    let mut session = opened.session;
    let mut rest = TRACE;
    for calls in 0..=TRACE.len() {
        if rest.is_empty() || calls == TRACE.len() {
            return end(out, calls, session, &shadow, &table);
        }
        let piece = rest.get(..most).unwrap_or(rest);
        let fed = feed(out, session, &mut shadow, &mut table, piece, room);
        let Some(left) = rest.get(fed.taken..) else {
            return show::not_asked(out);
        };
        session = fed.session;
        rest = left;
    }
}

// "With one row, a second grant answers 05": line 1, then line 4.
fn one_row(out: &impl Print) {
    show::line(out, "one row");
    let mut shadow = [0x7e; 16];
    let mut table = [7u32; 4];
    let opened = watcher::open(&mut shadow, &mut table, 2, 16);
    let piece = b"010000000d00000000\n010000000100000000\n";
    let mut report = [b'.'; 26];
    let fed = feed(
        out,
        opened.session,
        &mut shadow,
        &mut table,
        piece,
        &mut report,
    );
    end(out, 1, fed.session, &shadow, &table);
}

fn main(rt: HostRuntime) {
    let out = &rt;
    replay(out, "whole", TRACE.len(), &mut [b'.'; 208]);
    replay(out, "a byte at a time", 1, &mut [b'.'; 13]);
    replay(
        out,
        "room for one answer at a time",
        TRACE.len(),
        &mut [b'.'; 13],
    );
    one_row(out);
}
