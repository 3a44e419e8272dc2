// The parts that the kinds of line are made of, written into a line and read from one.
#![tactic(auto)]

mod items;
mod parts;
mod queries;

pub use items::{items_at, items_fit, numbers_ok, put_items};
pub use parts::{
    coords_at, d, kind, layout_ok, measure, put_coords, put_front, put_head, scope_at, scope_ok,
    table,
};
pub use queries::{query_fits, query_of};
