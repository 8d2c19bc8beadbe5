// Printing. A write that fails is not said: what a program of cases printed is held against what it must print.
use std::fmt::Display;

// `speech` has this line too: these programs try the product, and are built on none of its words.
pub fn words(out: &impl Print, words: impl Display + Drop) {
    let _ = out.print(words);
}

pub fn line(out: &impl Print, words: impl Display + Drop) {
    let _ = out.println(words);
}

// Bytes that need not be text.
pub fn bytes(out: &impl Print, bytes: &[u8]) {
    let _ = out.write_all(bytes);
}

// Where the function could not be asked at all.
pub fn not_asked(out: &impl Print) {
    words(out, " [got nothing, not an answer]");
}
