// A lent shadow read: the shadow byte, and a range judged by it.
#![tactic(auto)]

pub mod byte;
pub mod range;
