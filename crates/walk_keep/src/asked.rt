// What a question asks of a walk, and the numbers that the walk compares in place of its reach and its mark.
ghost use Rattle.std.specs.Prelude.{◌≡◌, ◌+◌, ◌≤◌, min};
ghost use Rattle.paper.specs.Limits.{most_claims};
ghost use Rattle.paper.specs.Orders.{snapshot_of};
ghost use Rattle.walk_keep.specs.Numbers.{top, mark_at, front_at, behind_at, first_at, low_at, end_at};

use crate::keys::{TOP, key, rank};
use crate::sought::Sought;
use paper::limits::MOST_NUMBER;
use paper::orders::{Mark, Order, Place};
use paper::tables::Table;

#[derive(Drop)]
pub struct Asked {
    pub order: Order,
    // By its number, as `from_both` takes it.
    pub measure: u8,
    pub d: usize,
    // How many items, among which claims, and from which key on.
    pub sought: Sought,
    // The first rank wanted.
    pub first: u64,
    // The end: every key that is admitted comes before it.
    pub end: u64,
    // What the first key, the first rank and the end follow from.
    pub reach: u64,
    pub place: Place,
    pub ghost low_is: { sought.low ≡ low_at order reach place },
    pub ghost first_is: { first ≡ first_at order reach place },
    pub ghost end_is: { end ≡ end_at order reach },
    // What a walk may be asked: its claims have keys.
    pub ghost stored: { sought.snapshot ≤ most_claims },
}

impl Asked {
    ghost use Rattle.walk_keep.specs.Asked.{Askable, AsksFor};

    // [4.4] [4.5] The question of a place. A mark beyond what keys have place for is behind all claims in near order, and before all in far
    // order, as the greatest rank and number are.
    pub fn new(t: Table, order: Order, reach: u64, place: Place, size: usize) -> Asked
        requires { Askable t place size }
        ensures { AsksFor t order reach place size result }
    {
        Asked {
            order,
            measure: t.measure,
            d: t.d,
            sought: Sought {
                size,
                snapshot: snapshot(place, t.count),
                low: low(order, reach, place),
            },
            first: first(order, reach, place),
            end: end(order, reach),
            reach,
            place,
        }
    }
}

// [4.4] [4.5] How many claims a place lets see.
fn snapshot(place: Place, count: usize) -> u64
    ensures { result ≡ snapshot_of place count }
{
    match place {
        Place::Start => count as u64,
        Place::After(snapshot, _) => snapshot,
    }
}

// [4.15] The first rank that a claim within reach can have.
#[tactic(auto, unfolding(crate::specs::Numbers::front_at))]
fn front(order: Order, reach: u64) -> u64
    ensures is { result ≡ front_at order reach }
    ensures small { result ≤ top }
{
    match order {
        Order::Near => 0,
        Order::Far => TOP - reach.min(TOP),
    }
}

// [4.12] The first rank that no claim within reach can have.
#[tactic(auto, unfolding(crate::specs::Numbers::behind_at))]
fn behind(order: Order, reach: u64) -> u64
    ensures is { result ≡ behind_at order reach }
    ensures small { result ≤ top + 1 }
{
    match order {
        Order::Near => reach.min(TOP) + 1,
        Order::Far => TOP + 1,
    }
}

// The mark's rank.
fn mark_rank(order: Order, mark: Mark) -> u64
    ensures is { result ≡ mark_at order mark }
    ensures small { result ≤ top }
{
    rank(order, mark.distance.min(TOP))
}

// [4.15] The first rank wanted.
#[tactic(auto, unfolding(crate::specs::Numbers::first_at))]
fn first(order: Order, reach: u64, place: Place) -> u64
    ensures { result ≡ first_at order reach place }
{
    let front = front(order, reach);
    match place {
        Place::Start => front,
        Place::After(_, mark) => front.max(mark_rank(order, mark)),
    }
}

// [2.7] The first key wanted.
#[tactic(auto, unfolding(crate::specs::Numbers::low_at))]
fn low(order: Order, reach: u64, place: Place) -> u64
    ensures { result ≡ low_at order reach place }
{
    let front = key(front(order, reach), 0);
    match place {
        Place::Start => front,
        Place::After(_, mark) => {
            let number = mark.number.min(MOST_NUMBER);
            front.max(key(mark_rank(order, mark), number) + 1)
        }
    }
}

// [2.5] The end.
#[tactic(auto, unfolding(crate::specs::Numbers::end_at))]
fn end(order: Order, reach: u64) -> u64
    ensures { result ≡ end_at order reach }
{
    key(behind(order, reach), 0)
}
