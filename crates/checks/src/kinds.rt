// Which kinds of line an order has, and which order a kind. Kinds are numbers: a line's byte may be any, and what is no kind is refused with 10.
ghost use Rattle.std.specs.Prelude.{◌≡◌};
ghost use Rattle.paper.specs.Lines.{ask_kind, answer_kind, ask_order, answer_order};

use crate::orders::order_by;
use paper::orders::Order;

// [5.5] The kind of an ask in an order.
pub fn ask_kind(order: Order) -> u8
    ensures { result ≡ ask_kind order }
{
    match order {
        Order::Near => 1,
        Order::Far => 4,
    }
}

// [5.6] The kind of an answer in an order.
pub fn answer_kind(order: Order) -> u8
    ensures { result ≡ answer_kind order }
{
    match order {
        Order::Near => 2,
        Order::Far => 5,
    }
}

// The order whose asks are of a kind, and the one whose answers are; near where there is none.
pub fn ask_order(kind: u64) -> Order
    ensures { result ≡ ask_order kind }
{
    order_by(kind == ask_kind(Order::Far) as u64)
}

pub fn answer_order(kind: u64) -> Order
    ensures { result ≡ answer_order kind }
{
    order_by(kind == answer_kind(Order::Far) as u64)
}
