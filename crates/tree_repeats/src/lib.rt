// [3.17] [8.17] Which references are known: whether one is among those of a table, and whether all of a run are new to it.
#![tactic(auto)]

pub mod index;
pub mod one;
pub mod runs;
