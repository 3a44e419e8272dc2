// The leaves of the walk: a question, keys, keeping the first so many keys, and what the number of items found tells of a
// page. They know no tree.
#![tactic(auto)]

pub mod asked;
pub mod first_keys;
pub mod keys;
pub mod limits;
pub mod pages;
pub mod sought;
