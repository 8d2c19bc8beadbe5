// Tables of four rows, a word a row and a letter a number: "2d10" is the row (2, 13, 1, 0). F stands for ffffffff,
// E for fffffffe, G for 20000002, H for 1fffffff and I for 20000000.
ghost use Rattle.std.specs.Prelude.{◌≤◌, length};

use crate::case::digit;
use rules::limits::ROW_NUMBERS;
use std::array;

pub const ROWS: usize = 4;

pub const NUMBERS: usize = ROWS * ROW_NUMBERS;

fn value_of(letter: u8) -> u32 {
    match letter {
        b'a'..=u8::MAX => letter as u32 - 87,
        b'F' => 0xffff_ffff,
        b'E' => 0xffff_fffe,
        b'G' => 0x2000_0002,
        b'H' => 0x1fff_ffff,
        b'A'..b'a' => 0x2000_0000,
        _ => letter as u32 % 16,
    }
}

// A blank stands behind the numbers of a row, and a number that is not there is 0.
pub fn table_of(letters: &[u8]) -> [u32; NUMBERS] {
    array::from_fn(|i| {
        letters
            .get(i + i / ROW_NUMBERS)
            .map_or(0, |letter| value_of(*letter))
    })
}

// The bytes of a word, of two digits each, as many as there is room for: "." is a word of none.
pub fn bytes_of<'a>(letters: &[u8], room: &'a mut [u8; 16]) -> &'a [u8]
    ensures { length result.now ≤ 16 }
{
    let mut pairs = letters.chunks(2);
    for (i, byte) in room.iter_mut().enumerate() {
        *byte = match pairs.next() {
            None | Some([] | [b' ' | b'.', ..]) => return &room[..i],
            Some([high]) => digit(*high) << 4,
            Some([high, low, ..]) => (digit(*high) << 4) | digit(*low),
        };
    }
    room
}
