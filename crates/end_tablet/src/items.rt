// Items as the tablet sees them: whether they rise, follow the mark, and are within reach and below the snapshot.
ghost use Rattle.std.specs.Prelude.{◌≡◌, ◌&&◌, ℕ, ◌+◌, ◌-◌, ◌*◌, ◌≤◌, ◌<◌, length, drop};
ghost use Rattle.paper.specs.Orders.{follows};
ghost use Rattle.paper.specs.Lists.{items_in};
ghost use Rattle.end_tablet.specs.Holding.{item_holds, items_hold};

use paper::orders::{Order, Place};

// [2.7] Whether distance x and number k come after the place; what reference they have does not matter.
#[tactic(auto, unfolding(paper::specs::Orders::follows))]
fn is_after(order: Order, place: Place, x: u64, k: u64) -> bool
    ensures { (y : ℕ) → result ≡ follows order place (record { number = k; reference = y; distance = x }) }
{
    match place {
        Place::Start => true,
        Place::After(_, mark) => order.before(mark.distance, mark.number, x, k),
    }
}

// Whether item i of `count` is in its place.
#[tactic(auto, using(crate::proofs::ItemLaws::opening), unfolding(crate::specs::Holding::item_holds))]
fn item_holds(
    order: Order,
    place: Place,
    reach: u64,
    snapshot: u64,
    room: &[u64],
    i: usize,
    count: usize,
) -> bool
    requires { (i < count) × (count * 3 ≤ length room.now) }
    ensures { result ≡ item_holds order place reach snapshot (items_in (count - i) (drop (i * 3) room.now)) }
{
    let k = room[i * 3];
    let x = room[i * 3 + 2];
    x <= reach
        && k < snapshot
        && is_after(order, place, x, k)
        && (i + 1 == count || order.before(x, k, room[i * 3 + 5], room[i * 3 + 3]))
}

// [7.6] Whether the first `count` items of a room rise, follow the place, and are within reach and below the snapshot.
pub fn items_hold(
    order: Order,
    place: Place,
    reach: u64,
    snapshot: u64,
    room: &[u64],
    count: usize,
) -> bool
    requires { count * 3 ≤ length room.now }
    ensures { result ≡ items_hold order place reach snapshot (items_in count room.now) }
{
    (0..count).all(|i| item_holds(order, place, reach, snapshot, room, i, count))
}
