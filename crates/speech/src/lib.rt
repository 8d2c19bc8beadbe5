// What is said to a reader on standard error: words, numbers, what each number of the paper means, and why a line was
// not done.
#![tactic(auto)]

pub mod explain;
pub mod say;
pub mod words;
