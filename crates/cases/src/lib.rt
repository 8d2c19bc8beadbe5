// What the programs of cases share: the cases of a text, comparing what a function answered with what the paper says,
// and printing what a public call answered and left.
#![tactic(auto)]

pub mod case;
pub mod print;
pub mod show;
pub mod tables;
