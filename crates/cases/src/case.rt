// The text of the cases, which a program of cases reads: a line is a word that says what is tried, then words with one
// space between them, what is given and what the paper says. Numbers are in hex, and "-" is nothing found.
use crate::show;
use crate::tables::{self, NUMBERS};

// A line of the text, and where its outcome is printed.
#[derive(Drop)]
pub struct Case<'a, P: Print> {
    pub out: &'a P,
    pub line: &'a [u8],
}

// Nothing found as a number: a comparison prints it so, and takes ffffffffffffffff for it, on any text as it always
// did.
const NOTHING: u64 = u64::MAX;

// A number as what is tried takes it: its lowest bits.
pub trait Given {
    fn of(number: u64) -> Self;
}

impl Given for u8 {
    fn of(number: u64) -> u8 {
        (number % 0x100) as u8
    }
}

impl Given for u32 {
    fn of(number: u64) -> u32 {
        (number % 0x1_0000_0000) as u32
    }
}

impl Given for usize {
    fn of(number: u64) -> usize {
        number as usize
    }
}

fn is_space(letter: &u8) -> bool {
    *letter == b' '
}

// Any letter is a digit.
pub(crate) fn digit(letter: u8) -> u8 {
    let low = letter % 16;
    if b'a' <= letter { (low + 9) % 16 } else { low }
}

// The number of a word, of its last 16 digits.
fn number_of(word: &[u8]) -> Option<u64> {
    word.iter().try_fold(0, |number, letter| match *letter {
        b'-' => None,
        letter => Some((number << 4) | digit(letter) as u64),
    })
}

impl<'a, P: Print> Case<'a, P> {
    // One that begins with ":" has a name to be printed, an empty one ends the line of its dots, and one that begins
    // with "#" is for the reader.
    pub fn of_line(out: &'a P, line: &'a [u8]) -> Option<Case<'a, P>> {
        match line {
            [] => show::line(out, ""),
            [b':', name @ ..] => {
                show::bytes(out, name);
                show::words(out, " ");
            }
            [b'#', ..] => {}
            _ => return Some(Case { out, line }),
        }
        None
    }

    // From a word on: nothing where the line has no such word.
    pub fn from(&self, word: usize) -> &'a [u8] {
        let words = word.saturating_add(1);
        self.line
            .splitn(words, is_space)
            .nth(word)
            .unwrap_or_default()
    }

    // A letter of the line from a word on, or a space.
    pub fn letter(&self, word: usize, place: usize) -> u8 {
        self.from(word).get(place).copied().unwrap_or(b' ')
    }

    // A word that is not there is no number, and is read as 0.
    pub fn number(&self, word: usize) -> u64 {
        let letters = self.from(word);
        if letters.is_empty() {
            show::not_asked(self.out);
        }
        let word = letters.split(is_space).next().unwrap_or_default();
        number_of(word).unwrap_or(NOTHING)
    }

    pub fn given<T: Given>(&self, word: usize) -> T {
        T::of(self.number(word))
    }

    // What was answered, or `instead` where the function could not be asked.
    pub fn asked<T: Drop>(&self, answered: Option<T>, instead: T) -> T {
        answered.unwrap_or_else(|| {
            show::not_asked(self.out);
            instead
        })
    }

    // Whether each number is what the paper says; of one that is not, both are said.
    pub fn same<T: Copy + Into<u64>>(&self, answered: &[T], expected: &[T]) -> bool {
        let mut same = true;
        for (answered, expected) in answered.iter().zip(expected) {
            let (answered, expected): (u64, u64) = ((*answered).into(), (*expected).into());
            if answered != expected {
                show::words(
                    self.out,
                    format_args!(" [got {answered:x}, not {expected:x}]"),
                );
                same = false;
            }
        }
        same
    }

    // The same of one number, which the paper gives in a word.
    pub fn same_number(&self, answered: impl Into<u64>, word: usize) -> bool {
        self.same(&[answered.into()], &[self.number(word)])
    }

    pub fn same_three(&self, answered: [u64; 3], words: [usize; 3]) -> bool {
        self.same(&answered, &words.map(|word| self.number(word)))
    }

    pub fn same_found(&self, answered: Option<usize>, word: usize) -> bool {
        self.same_number(answered.map_or(NOTHING, |i| i as u64), word)
    }

    // A shadow of eight granules is a number of 16 digits.
    pub fn same_shadow(&self, shadow: &[u8; 8], word: usize) -> bool {
        self.same_number(u64::from_be_bytes(*shadow), word)
    }

    pub fn same_table(&self, table: &[u32; NUMBERS], word: usize) -> bool {
        self.same(table, &tables::table_of(self.from(word)))
    }

    // The dot of a case that came out as the paper says.
    pub fn outcome(&self, right: bool) {
        if right {
            show::words(self.out, ".");
        }
    }
}
