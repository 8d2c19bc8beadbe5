// The C interface: the public calls and the two maps under C names, an answer as its numbers, since an enum does not
// cross to C. `include/kinkhost.h` declares them. Each repeats its callee's parameters and clause, since a C name has
// no other.
#![tactic(auto)]

ghost use Rattle.std.specs.Prelude.{◌≡◌};
ghost use Rattle.rules.specs.Maps.{map32, map64, map_call};
ghost use Rattle.watcher.specs.Calls.{OpenCall, FeedCall};
ghost use Rattle.lent.specs.Calls.{FeedInPlaceCall};
ghost use Rattle.kinkhost.specs.Calls.{GrantInNumbers, ReleaseInNumbers, AccessInNumbers, UnfinishedInNumbers};

use rules::{Counts, Fed, Mapped, Opened, Reply, Session};

#[unsafe(no_mangle)]
pub extern "C" fn kinkhost_open(
    shadow: &mut [u8],
    table: &mut [u32],
    redzone: usize,
    quarantine: u32,
) -> Opened
    ensures { OpenCall shadow.old table.old redzone quarantine
        result shadow.new table.new }
{
    watcher::open(shadow, table, redzone, quarantine)
}

#[unsafe(no_mangle)]
pub extern "C" fn kinkhost_grant(
    session: Session,
    shadow: &mut [u8],
    table: &mut [u32],
    size: u32,
) -> Reply
    ensures { GrantInNumbers session shadow.old table.old size
        result shadow.new table.new }
{
    answers::call_numbers_of(watcher::grant(session, shadow, table, size))
}

#[unsafe(no_mangle)]
pub extern "C" fn kinkhost_release(
    session: Session,
    shadow: &mut [u8],
    table: &mut [u32],
    address: u32,
) -> Reply
    ensures { ReleaseInNumbers session shadow.old table.old address
        result shadow.new table.new }
{
    answers::call_numbers_of(watcher::release(session, shadow, table, address))
}

#[unsafe(no_mangle)]
pub extern "C" fn kinkhost_access(
    session: Session,
    shadow: &[u8],
    table: &[u32],
    address: u32,
    length: u32,
) -> Reply
    ensures { AccessInNumbers session shadow.now table.now address length result }
{
    answers::call_numbers_of(watcher::access(session, shadow, table, address, length))
}

#[unsafe(no_mangle)]
pub extern "C" fn kinkhost_feed(
    session: Session,
    shadow: &mut [u8],
    table: &mut [u32],
    piece: &[u8],
    room: &mut [u8],
) -> Fed
    ensures { FeedCall session shadow.old table.old
        piece.now room.old
        result shadow.new table.new room.new }
{
    watcher::feed(session, shadow, table, piece, room)
}

#[unsafe(no_mangle)]
pub extern "C" fn kinkhost_feed_in_place(
    session: &mut Session,
    shadow: &mut [u8],
    table: &mut [u32],
    piece: &[u8],
    room: &mut [u8],
) -> Counts
    ensures { FeedInPlaceCall session.old shadow.old table.old
        piece.now room.old
        result session.new shadow.new table.new room.new }
{
    lent::feed_in_place(session, shadow, table, piece, room)
}

#[unsafe(no_mangle)]
pub extern "C" fn kinkhost_unfinished(session: Session) -> Reply
    ensures { UnfinishedInNumbers session result }
{
    answers::call_numbers_of(watcher::unfinished(session))
}

#[unsafe(no_mangle)]
pub extern "C" fn kinkhost_map32(address: u64) -> Mapped
    ensures { result ≡ map_call map32 address }
{
    maps::map32(address)
}

#[unsafe(no_mangle)]
pub extern "C" fn kinkhost_map64(address: u64) -> Mapped
    ensures { result ≡ map_call map64 address }
{
    maps::map64(address)
}
