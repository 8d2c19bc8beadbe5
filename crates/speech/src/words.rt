// What each number of the paper's table means.
use std::fmt;

// A status of the paper's table: two digits, and decimal, as 24 is twenty-four. A number and no enum, since it comes as
// digits of a report, or in what C is handed of an opening.
#[derive(Clone, Copy)]
pub struct Status(pub u8);

impl fmt::Display for Status {
    fn fmt<W: fmt::Write>(&self, f: &mut fmt::Formatter<W>) -> fmt::Result {
        let status = self.0;
        write!(f, "{status:02}")
    }
}

// An answer's: 10 stands for any but 00 to 09, and is what a reader has always been shown.
impl From<Option<u8>> for Status {
    fn from(status: Option<u8>) -> Status {
        Status(status.unwrap_or(10))
    }
}

impl Status {
    pub fn meaning(self) -> &'static str {
        match self.0 {
            0 => "done",
            1 => "the line is not 18 hex digits",
            2 => "the kind is not 01 to 04",
            3 => "B is not zero in a grant or a release",
            5 => "no row is empty",
            6 => "no place has room for it and a redzone on either side",
            7 => "no live or quarantined row starts there",
            8 => "no live row but a quarantined one starts there",
            9 => "the access is not good",
            21 => "the shadow length is not 8 to 65536 granules",
            22 => "the redzone is not 2 to 256 granules",
            23 => "the table is not 1 to 1024 rows",
            _ => "the session does not fit",
        }
    }
}

// What a bad byte's kind says: its granule's shadow byte, or ff.
#[derive(Clone, Copy)]
pub struct Kind(pub u8);

impl fmt::Display for Kind {
    fn fmt<W: fmt::Write>(&self, f: &mut fmt::Formatter<W>) -> fmt::Result {
        match self.0 {
            0xfa => write!(f, "redzone or room not held"),
            0xfd => write!(f, "released and quarantined"),
            0xff => write!(f, "outside the arena"),
            1 => write!(f, "only the first byte of its granule is addressable"),
            first @ 2..=7 => write!(
                f,
                "only the first {first} bytes of its granule are addressable"
            ),
            _ => write!(f, "no byte of its granule is addressable"),
        }
    }
}
