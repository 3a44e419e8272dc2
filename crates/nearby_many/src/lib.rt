// [4.16] Many questions to one table, which is tested once: row after row of the output rooms is what the single call gives.
#![tactic(auto)]

mod counts;
mod firsts;
mod pages;
mod probes;

pub use firsts::{farthest_each, nearest_each};
pub use pages::pages_each;
