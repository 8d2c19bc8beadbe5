// How what a public call answered and left is printed: answers as the report writes them, a shadow and a table as runs
// of equal bytes and rows ("2*fa 00 05" is fa fa 00 05), so that the longest buffer is a few words.
use rules::limits::ROW_NUMBERS;
use rules::{CallAnswer, Fed, Reply, Session};
use std::fmt::{self, Display, Formatter, Write};

// "Status (2), kind (2), value (8)." The status is decimal: 24 is twenty-four.
#[derive(Clone, Copy)]
pub struct Answered(pub CallAnswer);

impl Display for Answered {
    fn fmt<W: Write>(&self, f: &mut Formatter<W>) -> fmt::Result {
        let Reply {
            status,
            kind,
            value,
        } = answers::call_numbers_of(self.0);
        write!(f, "{status:02}{kind:02x}{value:08x}")
    }
}

// A line feed would end the case's line, and neither a zero byte nor a carriage return can be seen.
fn seen(byte: u8) -> char {
    match byte {
        b'\n' => '/',
        b'\r' => '^',
        0 => '_',
        _ => byte as char,
    }
}

#[derive(Clone, Copy)]
pub struct Text<'a>(pub &'a [u8]);

impl Display for Text<'_> {
    fn fmt<W: Write>(&self, f: &mut Formatter<W>) -> fmt::Result {
        for byte in self.0 {
            f.write_char(seen(*byte))?;
        }
        Ok(())
    }
}

// As the paper prints a shadow.
#[derive(Clone, Copy)]
pub struct Bytes<'a>(pub &'a [u8]);

impl Display for Bytes<'_> {
    fn fmt<W: Write>(&self, f: &mut Formatter<W>) -> fmt::Result {
        for byte in self.0 {
            write!(f, "{byte:02x}")?;
        }
        Ok(())
    }
}

// Each field, in the paper's order.
#[derive(Clone, Copy)]
pub struct Handed(pub Session);

impl Display for Handed {
    fn fmt<W: Write>(&self, f: &mut Formatter<W>) -> fmt::Result {
        let Session {
            granules,
            rows,
            redzone,
            quarantine,
            unfinished,
            line,
        } = self.0;
        let text = Text(line.as_slice());
        write!(
            f,
            "session {granules} {rows} {redzone} {quarantine} {unfinished} {text}"
        )
    }
}

// What a feed answered, with the whole room, and the session that it handed back.
#[derive(Clone, Copy)]
pub struct Feed<'a>(pub Fed, pub &'a [u8]);

impl Display for Feed<'_> {
    fn fmt<W: Write>(&self, f: &mut Formatter<W>) -> fmt::Result {
        let Fed {
            session,
            status,
            taken,
            wrote,
        } = self.0;
        let room = Text(self.1);
        let session = Handed(session);
        write!(
            f,
            "{status:02}, taken {taken}, wrote {wrote}, room {room}, {session}"
        )
    }
}

// So many of a thing in a row.
fn run<W: Write>(f: &mut Formatter<W>, count: usize, thing: impl Display + Drop) -> fmt::Result {
    match count {
        1 => write!(f, " {thing}"),
        _ => write!(f, " {count}*{thing}"),
    }
}

#[derive(Clone, Copy)]
pub struct Shadow<'a>(pub &'a [u8]);

impl Display for Shadow<'_> {
    fn fmt<W: Write>(&self, f: &mut Formatter<W>) -> fmt::Result {
        write!(f, "shadow")?;
        for equal in self.0.chunk_by(|a, b| a == b) {
            run(f, equal.len(), Bytes(&equal[..1]))?;
        }
        Ok(())
    }
}

// As many of its numbers as there are: a table may end within a row.
#[derive(Clone, Copy)]
struct Row<'a>(&'a [u32]);

impl Display for Row<'_> {
    fn fmt<W: Write>(&self, f: &mut Formatter<W>) -> fmt::Result {
        let mut mark = '(';
        for number in self.0 {
            write!(f, "{mark}{number}")?;
            mark = ',';
        }
        write!(f, ")")
    }
}

#[derive(Clone, Copy)]
pub struct Rows<'a>(pub &'a [u32]);

impl Display for Rows<'_> {
    fn fmt<W: Write>(&self, f: &mut Formatter<W>) -> fmt::Result {
        write!(f, "rows")?;
        let (rows, rest) = self.0.as_chunks::<ROW_NUMBERS>();
        for equal in rows.chunk_by(|a, b| a == b) {
            run(f, equal.len(), Row(&equal[0]))?;
        }
        if rest.is_empty() {
            return Ok(());
        }
        run(f, 1, Row(rest))
    }
}

// The buffers that a call left.
#[derive(Clone, Copy)]
pub struct Left<'a>(pub &'a [u8], pub &'a [u32]);

impl Display for Left<'_> {
    fn fmt<W: Write>(&self, f: &mut Formatter<W>) -> fmt::Result {
        let shadow = Shadow(self.0);
        let rows = Rows(self.1);
        write!(f, "{shadow}, {rows}")
    }
}
