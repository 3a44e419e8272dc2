// The orders and places of pages, five numbers for each.
ghost use Rattle.std.specs.Prelude.{◌≡◌, ◌+◌, ◌*◌, ◌≤◌, length};
ghost use Rattle.rows.specs.Places.{place_numbers, order_at, place_at};

use checks::order_by;
use paper::orders::{Mark, Order, Place};

// [4.18] Numbers of a row.
pub const PLACE_NUMBERS: usize = 5;

// [4.18] The order of question i, the first number of its row: 0 where it is near, and otherwise anything else.
#[tactic(auto, unfolding(crate::specs::Places::order_at))]
pub fn order_at(places: &[u64], i: usize) -> Order
    requires { i * place_numbers + place_numbers ≤ length places.now }
    ensures { result ≡ order_at places.now i }
{
    let at = i * PLACE_NUMBERS;
    order_by(places[at] != 0)
}

// [4.18] The place of question i, the other four: 0 where it is the start, and otherwise anything else; snapshot; the mark.
#[tactic(auto, unfolding(crate::specs::Places::place_at))]
pub fn place_at(places: &[u64], i: usize) -> Place
    requires { i * place_numbers + place_numbers ≤ length places.now }
    ensures { result ≡ place_at places.now i }
{
    let at = i * PLACE_NUMBERS;
    if places[at + 1] == 0 {
        return Place::Start;
    }
    Place::After(places[at + 2], Mark::at(places[at + 3], places[at + 4]))
}
