// Orders as flags, and whether two are the same.
ghost use Rattle.std.specs.Prelude.{◌≡◌};
ghost use Rattle.paper.specs.Orders.{is_far, order_by, same_order};

use paper::orders::Order;

// [9.19] An order as a flag, and a flag as an order.
pub fn is_far(order: Order) -> bool
    ensures { result ≡ is_far order }
{
    matches!(order, Order::Far)
}

pub fn order_by(far: bool) -> Order
    ensures { result ≡ order_by far }
{
    if far { Order::Far } else { Order::Near }
}

// Whether two orders are the same.
pub fn same_order(a: Order, b: Order) -> bool
    ensures { result ≡ same_order a b }
{
    a == b
}
