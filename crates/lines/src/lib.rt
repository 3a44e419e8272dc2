// The lines: for asks, answers and claims a bare writer and a bare reader each, and for the office the ask and the claim in a line that was found sound.
#![tactic(auto)]

mod answers;
mod asks;
mod claims;

pub use answers::{read_answer, write_answer};
pub use asks::{ask_in, read_ask, write_ask};
pub use claims::{claim_in, read_claim, write_claim};
