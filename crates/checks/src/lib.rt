// Tests that several layers put, and small readings that they share. They stand apart from `paper`, whose examples are then checked in
// seconds.
#![tactic(auto)]

mod counts;
mod flags;
mod kinds;
mod orders;
mod places;
mod ranges;
mod slots;
mod tables;

pub use counts::is_whole;
pub use flags::flag;
pub use kinds::{answer_kind, answer_order, ask_kind, ask_order};
pub use orders::{is_far, order_by, same_order};
pub use places::{place_of, snapshot_holds};
pub use ranges::{in_range, size_holds};
pub use slots::padded;
pub use tables::is_ours;
