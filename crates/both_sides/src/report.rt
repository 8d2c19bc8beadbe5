// Report room: "until the piece ends, or the next byte is a line feed and fewer than 13 bytes of report room are left".
// The two lines are a grant, and a read of its first byte.
use crate::feeds;

pub fn run(out: &impl Print) {
    feeds::ask_each(
        out,
        "two lines, room for 0 bytes|16 4 2 16 0|010000000d00000000\n030000001000000001\n;\
            two lines, room for 12 bytes|16 4 2 16 12|010000000d00000000\n030000001000000001\n;\
            two lines, room for 13 bytes|16 4 2 16 13|010000000d00000000\n030000001000000001\n;\
            two lines, room for 25 bytes|16 4 2 16 25|010000000d00000000\n030000001000000001\n;\
            two lines, room for 26 bytes|16 4 2 16 26|010000000d00000000\n030000001000000001\n;\
            two lines, room for 27 bytes|16 4 2 16 27|010000000d00000000\n030000001000000001\n;\
            empty piece, room for 0 bytes|16 4 2 16 0|;\
            empty piece, room for 26 bytes|16 4 2 16 26|;\
            line feed, room for 12 bytes|16 4 2 16 12|\n;\
            line feed, room for 13 bytes|16 4 2 16 13|\n;\
            three line feeds, room for 26 bytes|16 4 2 16 26|\n\n\n;",
    );
}
