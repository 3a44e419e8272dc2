// Numbers in lent rooms: rows of them, the filled front of a room, and items joined to those that stand in one. Rooms are numbers and no structs,
// as C lends them.
#![tactic(auto)]

mod answers;
mod counts;
mod fronts;
mod joining;
mod numbers;
mod places;

pub use answers::{put_found, put_page};
pub use counts::has_rows;
pub use fronts::front;
pub use joining::join;
pub use numbers::put;
pub use places::{PLACE_NUMBERS, order_at, place_at};
