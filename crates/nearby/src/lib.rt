// The public calls. [9.1] [9.2] [9.3] Each checks its own input, in the order of its rule, refuses under a number and then leaves all
// lent memory as it was, and otherwise gives what its definition in paper/specs says.
#![tactic(auto)]

mod bare;
mod lists;
mod office;
mod questions;
mod tables;

pub use bare::{
    read_answer_line, read_ask_line, read_claim_line, write_answer_line, write_ask_line,
    write_claim_line,
};
pub use lists::{open_list, take, write_ask};
pub use office::answer;
pub use questions::{farthest, front, nearest, page};
pub use tables::{enter, make_table, test_table};
