// Lines: every length about 18 with and without its line feed, the bytes that are no digits, the kinds, and B.
use crate::feeds;

// "A frame is 18 hex digits of either case and a line feed." "An unfinished line is never acted on; its length can be
// asked (19 stands for 19 or more)."
fn lengths(out: &impl Print) {
    feeds::ask_each(
        out,
        "line of 0 bytes|16 4 2 16 14|\n;\
            line of 1 byte|16 4 2 16 14|0\n;\
            line of 17 bytes|16 4 2 16 14|010000000d0000000\n;\
            line of 18 bytes|16 4 2 16 14|010000000d00000000\n;\
            line of 19 bytes|16 4 2 16 14|010000000d000000000\n;\
            line of 20 bytes|16 4 2 16 14|010000000d0000000000\n;\
            line of 100 bytes|16 4 2 16 14|010000000d00000000000000000000000000000000000000000000000000000000000000000\
            0000000000000000000000000\n;",
    );
    feeds::ask_each(
        out,
        "0 bytes, no line feed|16 4 2 16 14|;\
            1 byte, no line feed|16 4 2 16 14|0;\
            17 bytes, no line feed|16 4 2 16 14|010000000d0000000;\
            18 bytes, no line feed|16 4 2 16 14|010000000d00000000;\
            19 bytes, no line feed|16 4 2 16 14|010000000d000000001;\
            20 bytes, no line feed|16 4 2 16 14|010000000d0000000011;\
            100 bytes, no line feed|16 4 2 16 14|010000000d00000000111111111111111111111111111111111111111111111111111\
            1111111111111111111111111111111;\
            a zero byte, no line feed|16 4 2 16 14|\x00;",
    );
}

// "A line answered, refused or not, empties the unfinished line." 02: "kind not 01 to 04". 03: "B not zero in 01 or
// 02". 01 comes before 02, and 02 before 03.
fn refusals(out: &impl Print) {
    feeds::ask_each(
        out,
        "line of 19 bytes, then one of 18|16 4 2 16 27|010000000d000000000\n010000000d00000000\n;\
            grant in capitals|16 4 2 16 14|010000000D00000000\n;\
            access in capitals|16 4 2 16 14|03ABCDEF0100000001\n;\
            access in small letters|16 4 2 16 14|04abcdef0100000001\n;\
            carriage return after 18 digits|16 4 2 16 14|010000000d00000000\r\n;\
            carriage return as the 18th byte|16 4 2 16 14|010000000d0000000\r\n;\
            zero byte as the 18th|16 4 2 16 14|010000000d0000000\x00\n;\
            zero byte alone|16 4 2 16 14|\x00\n;\
            g as the first byte|16 4 2 16 14|g10000000d00000000\n;",
    );
    feeds::ask_each(
        out,
        "kind 00|16 4 2 16 14|000000000d00000000\n;\
            kind 02|16 4 2 16 14|020000000000000000\n;\
            kind 03|16 4 2 16 14|030000000000000001\n;\
            kind 04|16 4 2 16 14|040000000000000001\n;\
            kind 05|16 4 2 16 14|050000000d00000000\n;\
            kind ff|16 4 2 16 14|ff0000000d00000000\n;\
            kind 01, B of 1|16 4 2 16 14|010000000d00000001\n;\
            kind 01, B of 2^32 - 1|16 4 2 16 14|010000000dffffffff\n;\
            kind 02, B of 0|16 4 2 16 14|020000001000000000\n;\
            kind 02, B of 1|16 4 2 16 14|020000001000000001\n;\
            kind 02, A of 0, B of 1|16 4 2 16 14|020000000000000001\n;\
            kind 05, B of 1|16 4 2 16 14|050000000d00000001\n;\
            kind 05, g as the last byte|16 4 2 16 14|050000000d0000000g\n;\
            kind 01, B of 1 and g as the last byte|16 4 2 16 14|010000000d1000000g\n;",
    );
}

pub fn run(out: &impl Print) {
    lengths(out);
    refusals(out);
}
