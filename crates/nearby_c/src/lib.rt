// The public calls for C, and for whatever calls C. [9.19] Each promises what its call of `nearby` promises, with cases as numbers.
// [9.20] A slice is a pointer and a length; a null pointer goes with length 0.
#![tactic(auto)]

mod bare;
mod lists;
mod office;
mod questions;
mod several;
mod tables;
