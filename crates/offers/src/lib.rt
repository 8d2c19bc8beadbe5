// A replay's turns: a piece of the trace offered until all of it is taken, and what is said of the whole.
#![tactic(auto)]

pub mod offer;
pub mod summary;
