// The words of the rules as types: what a claim is measured by, where a page starts, what tables, lists and lines are.
// Their meaning stands in specs/, under the rules (docs/RULES.md); the crates above this one cite it.
#![tactic(auto)]

pub mod lent;
pub mod limits;
pub mod lines;
pub mod lists;
pub mod orders;
pub mod points;
pub mod queries;
pub mod refusals;
pub mod tables;
