// Replays a trace: frames on standard input, the report on standard output as it goes, all else on standard error. Its
// arguments are nine numbers, which `kinkhost` at the top of the repository gives.
#![tactic(auto)]

mod options;

use offers::offer::{Lent, Run, Stopped, Streams};
use offers::{offer, summary};
use options::Options;
use speech::say::Failure;
use speech::words::Status;
use std::io::Read;
use std::rt::Files;
use tally::Outcome;

// One more than the paper allows, so that it is the watcher that refuses what is too long.
const SHADOW_BYTES: usize = 65_537;

const TABLE_NUMBERS: usize = 4_100;

const USAGE: &str =
    "replay takes nine numbers: granules redzone quarantine rows piece room explain progress verdict";

const PIECE_BYTES: usize = 65_536;

// Pieces are read and offered until the trace ends. Nothing says that it does, so they are counted, up to a number that
// no trace uses up.
fn pieces(
    input: &mut impl Read,
    streams: &Streams<'_, impl Print, impl Print>,
    lent: &mut Lent<'_>,
    begun: Run,
    piece: &mut [u8],
) -> Result<Run, Stopped> {
    let mut run = begun;
    for _ in 0..u64::MAX {
        let read = input.read(piece);
        let length = read.map_err(|error| Stopped::said(
            streams.err,
            Failure("the trace cannot be read", error),
        ))?;
        if length == 0 {
            break;
        }
        let lines = run.tally.lines;
        run = offer::all(streams, lent, run, &piece[..length])?;
        summary::progress(streams, run, lines);
    }
    Ok(run)
}

fn replay(
    rt: &(impl Input + Print + Files),
    err: &impl Print,
    options: Options,
    lent: &mut Lent<'_>,
    piece: &mut [u8],
) -> Result<Outcome, Stopped> {
    let opened = watcher::open(lent.shadow, lent.table, options.redzone, options.quarantine);
    if opened.status != 0 {
        let status = Status(opened.status);
        let meaning = status.meaning();
        let words = format_args!("opening refused, {status}: {meaning}");
        return Err(Stopped::said(err, words));
    }
    let streams = Streams {
        out: rt,
        err,
        explain: options.explain,
        progress: options.progress,
    };
    let begun = offer::begun(opened.session);
    let ran = pieces(&mut rt.reader(), &streams, lent, begun, piece);
    summary::verdict(rt, err, ran)
}

// The buffers, as long as the options ask.
fn with_buffers(
    rt: &(impl Input + Print + Files),
    err: &impl Print,
    options: Options,
) -> Result<Outcome, Stopped> {
    let mut shadow = [0u8; SHADOW_BYTES];
    let mut table = [0u32; TABLE_NUMBERS];
    let mut piece = [0u8; PIECE_BYTES];
    let mut room = [0u8; PIECE_BYTES];
    let mut lent = Lent {
        shadow: &mut shadow[..options.granules.min(SHADOW_BYTES)],
        table: &mut table[..options.numbers.min(TABLE_NUMBERS)],
        room: &mut room[..options.room.min(PIECE_BYTES)],
    };
    let taken = &mut piece[..options.piece.min(PIECE_BYTES)];
    replay(rt, err, options, &mut lent, taken)
}

fn main(rt: HostRuntime) {
    let err = rt.stderr();
    let ended = match options::given(&rt) {
        Some(options) => with_buffers(&rt, &err, options),
        None => Err(Stopped::said(&err, USAGE)),
    };
    options::tell(&rt, &err, summary::told(ended));
}
