// A lent table of rows: the lowest empty row, and what one pass finds for a release.
#![tactic(auto)]

pub mod rows;
