// A session with the buffers that are lent to each of its calls, which the calls take apart.
use cases::print::{Answered, Feed, Left};
use rules::Session;

#[derive(Drop)]
pub struct Watched<'a> {
    pub session: Session,
    pub shadow: &'a mut [u8],
    pub table: &'a mut [u32],
}

// A session with R of 2 to which nothing has been fed, field by field: the calls are tried, and nothing below them is
// used.
pub fn fresh(granules: usize, rows: usize, quarantine: u32) -> Session {
    Session {
        granules,
        rows,
        redzone: 2,
        quarantine,
        unfinished: 0,
        line: [0; 18],
    }
}

impl<'a> Watched<'a> {
    // Freshly opened, or with the closed session where that is refused.
    pub fn open(
        shadow: &'a mut [u8],
        table: &'a mut [u32],
        redzone: usize,
        quarantine: u32,
    ) -> Watched<'a> {
        let opened = watcher::open(shadow, table, redzone, quarantine);
        Watched {
            session: opened.session,
            shadow,
            table,
        }
    }

    pub fn grant(&mut self, size: u32) -> Answered {
        Answered(watcher::grant(self.session, self.shadow, self.table, size))
    }

    pub fn release(&mut self, address: u32) -> Answered {
        Answered(watcher::release(self.session, self.shadow, self.table, address))
    }

    pub fn access(&self, address: u32, length: u32) -> Answered {
        Answered(watcher::access(self.session, self.shadow, self.table, address, length))
    }

    pub fn unfinished(&self) -> Answered {
        Answered(watcher::unfinished(self.session))
    }

    // The session that a feed hands back is the one to go on with.
    pub fn feed<'r>(&mut self, piece: &[u8], room: &'r mut [u8]) -> Feed<'r> {
        let fed = watcher::feed(self.session, self.shadow, self.table, piece, room);
        self.session = fed.session;
        Feed(fed, room)
    }

    // The buffers as they were left.
    pub fn left(&self) -> Left<'_> {
        Left(self.shadow, self.table)
    }
}
