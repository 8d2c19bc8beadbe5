// Frames in: what a line asks.
#![tactic(auto)]

pub mod lines;
