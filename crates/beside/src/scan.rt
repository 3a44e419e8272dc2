// The plain scan: every claim is measured, and the first one in order behind the last one taken is looked for anew for each item.
ghost use Rattle.std.specs.Prelude.{◌<◌, ◌≤◌, length};

use super::tables::{Point, reference};
use paper::limits::{ITEM_ROOM, MOST_COORDINATES};
use paper::orders::{Item, Order, Paged};
use paper::points::Measure;
use std::cmp::Ordering;

// A question about the first `snapshot` claims, as the scan knows it. Where there is an item to come after, only what does counts.
#[derive(Clone, Copy)]
pub struct Asking {
    pub order: Order,
    pub reach: u64,
    pub snapshot: usize,
    pub after: Option<Item>,
    pub size: usize,
}

impl Asking {
    fn compare(&self, a: &Item, b: &Item) -> Ordering {
        let by_distance = match self.order {
            Order::Near => a.distance.cmp(&b.distance),
            Order::Far => b.distance.cmp(&a.distance),
        };
        by_distance.then(a.number.cmp(&b.number))
    }

    fn lets_in(&self, item: &Item) -> bool {
        item.distance <= self.reach
            && self
                .after
                .is_none_or(|mark| self.compare(&mark, item).is_lt())
    }
}

// What is measured. A measure takes as many of a point's coordinates as the probe has.
#[derive(Clone, Copy)]
pub struct Scan<'a> {
    pub measure: Measure,
    pub points: &'a [Point],
    pub probe: &'a [i32],
}

impl Scan<'_> {
    fn distance(&self, point: &[i32]) -> u64
        requires { length point.now ≤ MOST_COORDINATES }
    {
        let gaps = point
            .iter()
            .zip(self.probe)
            .map(|(a, b)| (i64::from(*a) - i64::from(*b)).unsigned_abs());
        match self.measure {
            Measure::CityBlock => gaps.sum(),
            Measure::Maximum => gaps.max().unwrap_or(0),
            Measure::Hamming => gaps.filter(|gap| *gap != 0).count() as u64,
        }
    }

    fn item(&self, k: usize, point: &Point) -> Item {
        Item {
            number: k as u64,
            reference: u64::from(reference(k)),
            distance: self.distance(point),
        }
    }

    // Claim k.
    pub fn claim(&self, k: usize) -> Item
        requires { k < length self.now.points.now }
    {
        self.item(k, &self.points[k])
    }

    // How many claims the question lets in.
    pub fn count(&self, q: &Asking) -> usize {
        self.points
            .iter()
            .enumerate()
            .take(q.snapshot)
            .filter(|(k, point)| q.lets_in(&self.item(*k, point)))
            .count()
    }

    // The first item in order of those that the question lets in.
    pub fn first(&self, q: &Asking) -> Option<Item> {
        self.points
            .iter()
            .enumerate()
            .take(q.snapshot)
            .map(|(k, point)| self.item(k, point))
            .filter(|item| q.lets_in(item))
            .min_by(|a, b| q.compare(a, b))
    }

    // The page: its items stand at the front of the room, and what is behind them stays.
    pub fn page(&self, q: Asking, room: &mut [u64; ITEM_ROOM]) -> Paged {
        let all = self.count(&q);
        let mut rest = q;
        for slot in room.chunks_exact_mut(3).take(q.size) {
            let Some(item) = self.first(&rest) else {
                break;
            };
            slot.copy_from_slice(&[item.number, item.reference, item.distance]);
            rest.after = Some(item);
        }
        Paged {
            count: all.min(q.size),
            last: all <= q.size,
        }
    }
}
