// [6.1] The office's end: the answer line to an ask line, by that line and a sound table alone.
#![tactic(auto)]

mod answers;
mod pages;

pub use answers::{answer_ask, answer_line};
