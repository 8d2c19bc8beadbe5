// Text: hex digits read and written, numbers of up to 64 bits.
#![tactic(auto)]

ghost use Rattle.std.specs.Prelude.{◌≤◌, ◌<◌, ◌≡◌, length};
ghost use Rattle.rules.specs.Hex.{digit_value, hex_digit, number, digit, digits};

use rules::limits::NO_DIGIT;

// The value of each hex digit, of either case; 16, `NO_DIGIT`, for a byte that is none.
const VALUES: [u8; 256] = [
    16, 16, 16, 16, 16, 16, 16, 16, 16, 16, 16, 16, 16, 16, 16, 16, 16, 16, 16, 16, 16, 16, 16, 16,
    16, 16, 16, 16, 16, 16, 16, 16, 16, 16, 16, 16, 16, 16, 16, 16, 16, 16, 16, 16, 16, 16, 16, 16,
    0, 1, 2, 3, 4, 5, 6, 7, 8, 9, 16, 16, 16, 16, 16, 16, 16, 10, 11, 12, 13, 14, 15, 16, 16, 16,
    16, 16, 16, 16, 16, 16, 16, 16, 16, 16, 16, 16, 16, 16, 16, 16, 16, 16, 16, 16, 16, 16, 16, 10,
    11, 12, 13, 14, 15, 16, 16, 16, 16, 16, 16, 16, 16, 16, 16, 16, 16, 16, 16, 16, 16, 16, 16, 16,
    16, 16, 16, 16, 16, 16, 16, 16, 16, 16, 16, 16, 16, 16, 16, 16, 16, 16, 16, 16, 16, 16, 16, 16,
    16, 16, 16, 16, 16, 16, 16, 16, 16, 16, 16, 16, 16, 16, 16, 16, 16, 16, 16, 16, 16, 16, 16, 16,
    16, 16, 16, 16, 16, 16, 16, 16, 16, 16, 16, 16, 16, 16, 16, 16, 16, 16, 16, 16, 16, 16, 16, 16,
    16, 16, 16, 16, 16, 16, 16, 16, 16, 16, 16, 16, 16, 16, 16, 16, 16, 16, 16, 16, 16, 16, 16, 16,
    16, 16, 16, 16, 16, 16, 16, 16, 16, 16, 16, 16, 16, 16, 16, 16, 16, 16, 16, 16, 16, 16, 16, 16,
    16, 16, 16, 16, 16, 16, 16, 16, 16, 16, 16, 16, 16, 16,
];

fn digit_value(byte: u8) -> u8
    ensures { result ≡ digit_value byte }
{
    VALUES[byte as usize]
}

#[tactic(auto, using(rules::proofs::Hex::value_some, rules::proofs::Hex::value_none))]
fn hex_digit(byte: u8) -> Option<u8>
    ensures { result ≡ hex_digit byte }
{
    let value = digit_value(byte);
    (value < NO_DIGIT).then_some(value)
}

// The number that at most 16 digits say, which therefore fits 64 bits.
#[tactic(auto, using(crate::proofs::Digits::reading))]
pub fn number(digits: &[u8]) -> Option<usize>
    requires { length digits.now ≤ 16 }
    ensures { result ≡ number digits.now }
{
    let mut said = 0;
    for &byte in digits {
        said = 16 * said + usize::from(hex_digit(byte)?);
    }
    Some(said)
}

// A digit below 16, in lower case; `char::from_digit` answers an option of a character, of which a byte is yet to be
// made.
#[tactic(auto, unfolding(rules::specs::Hex::digit))]
fn digit(value: u8) -> u8
    requires { value < 16 }
    ensures { result ≡ digit value }
{
    if value < 10 {
        b'0' + value
    } else {
        b'a' + (value - 10)
    }
}

// As many of a number's lowest digits as the part is long, from the last of them to the first.
#[tactic(auto, using(crate::proofs::Digits::writing))]
pub fn put_digits(part: &mut [u8], number: u64)
    ensures { part.new ≡ digits (length part.old) number }
{
    let mut left = number;
    // by index: of what is written through `iter_mut` a proof knows the length alone
    for i in (0..part.len()).rev() {
        part[i] = digit((left % 16) as u8);
        left /= 16;
    }
}
