// The office over a stream of lines: one line served, a chunk fed, the input's end.
#![tactic(auto)]

mod asks;
mod claims;
pub mod feeding;
mod one_line;
mod refusing;
