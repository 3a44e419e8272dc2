// Lines as digits, and numbers in them: what every kind of line is read and written with.
#![tactic(auto)]

mod hex;
mod numbers;

pub use hex::is_sound;
pub use numbers::{number, pattern, put, signed, size};
