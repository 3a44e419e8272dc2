// Generated tables and questions beside a plain scan, which shares no code with the walk: its own distance, its own selection.
// Prints how many claims the tables have, how many pages were asked for, how many of them in far order and how many refused for their mark, how many items and last pages came, how many
// nearest and farthest claims were asked for and how often there was none, and how many answers were not the scan's.
#![tactic(auto)]

mod checked;
mod scan;
mod tables;
mod tally;

ghost use Rattle.std.specs.Prelude.{◌<◌};
ghost use Rattle.beside.specs.Questions.{Drawn};

use checked::Checked;
use paper::limits::ITEM_ROOM;
use paper::orders::Order;
use paper::points::Measure;
use scan::{Asking, Scan};
use std::{array, io};
use tables::{CLAIMS, Draws, Lent, Point};
use tally::Tally;

// What stands in a page's room beforehand, so that what is written behind the page shows.
const UNTOUCHED: u64 = 7777777;

// A page beside the scan's. Only a mark beyond the reach is refused.
fn page_beside(asked: &Checked, q: &Asking, tally: &mut Tally)
    requires { Drawn asked.now.table.table q.now }
{
    let mut room = [UNTOUCHED; ITEM_ROOM];
    let answer = asked.page(q, &mut room);
    let right = match answer {
        None => q.after.is_some_and(|mark| q.reach < mark.distance),
        Some(paged) => {
            let mut expected = [UNTOUCHED; ITEM_ROOM];
            let page = asked.scan.page(*q, &mut expected);
            paged.count == page.count && paged.last == page.last && room == expected
        }
    };
    tally.page(q.order, answer, right);
}

// Nearest within the reach and farthest, beside the scan's.
fn firsts_beside(asked: &Checked, reach: u64, tally: &mut Tally) {
    let near = Asking {
        order: Order::Near,
        reach,
        snapshot: asked.table.header.count,
        after: None,
        size: 1,
    };
    let far = Asking {
        order: Order::Far,
        reach: u64::MAX,
        ..near
    };
    let one = asked.nearest(reach);
    let two = asked.farthest();
    tally.first(one, one == asked.scan.first(&near));
    tally.first(two, two == asked.scan.first(&far));
}

// Reach 0, small ones, the largest, and one that some claim is at.
fn drawn_reach(draws: &mut Draws, other: u64) -> u64 {
    match draws.below(8) {
        0 => 0,
        1 => u64::MAX,
        small @ 2..=4 => small,
        5 => 5000,
        _ => other,
    }
}

// A question for a page from the start or from a place in the middle, in either order, of each size.
fn drawn(asked: &Checked, draws: &mut Draws) -> Asking
    ensures { Drawn asked.now.table.table result }
{
    let order = if draws.below(2) == 1 {
        Order::Far
    } else {
        Order::Near
    };
    let size = 1 + draws.below(16) as usize;
    let count = asked.table.header.count;
    let snapshot = draws.below(count as u64 + 1) as usize;
    let whole = |reach| Asking {
        order,
        reach,
        snapshot: count,
        after: None,
        size,
    };
    if snapshot == 0 {
        return whole(drawn_reach(draws, 1));
    }
    let mark = asked.scan.claim(draws.below(snapshot as u64) as usize);
    let reach = drawn_reach(draws, mark.distance);
    if draws.below(4) == 0 {
        return whole(reach);
    }
    Asking {
        snapshot,
        after: Some(mark),
        ..whole(reach)
    }
}

// A question of each kind. A table that cannot be asked counts as a page that is not the scan's.
fn ask(lent: &Lent, scan: Scan, mut draws: Draws, tally: &mut Tally) {
    let Some(asked) = Checked::new(lent.table(), scan) else {
        tally.page(Order::Near, None, false);
        return;
    };
    firsts_beside(&asked, drawn_reach(&mut draws, 7), tally);
    let q = drawn(&asked, &mut draws);
    page_beside(&asked, &q, tally);
}

// One table: measure and d by its number, as many claims as the generator says. Each question has a probe of its own.
fn one_table(i: u64, tally: &mut Tally)
    requires { i < 96 }
{
    let mut draws = Draws::new(20260000 + i * 7919, 2 + i % 15);
    let points: [Point; CLAIMS] = array::from_fn(|_| draws.point());
    let (number, measure) = match i % 3 {
        0 => (1, Measure::CityBlock),
        1 => (2, Measure::Maximum),
        _ => (3, Measure::Hamming),
    };
    let d = (1 + i / 3 % 8) as usize;
    let points = &points[..draws.here(CLAIMS as u64 + 1) as usize];
    let lent = Lent::of(number, d, points);
    tally.table(lent.header.count);
    draws.step();
    for _ in 0..150 {
        let probe = draws.point();
        let scan = Scan {
            measure,
            points,
            probe: &probe[..d],
        };
        ask(&lent, scan, draws, tally);
    }
}

fn main(rt: HostRuntime) -> io::Result<()> {
    let mut tally = Tally::default();
    for i in 0..96 {
        one_table(i, &mut tally);
    }
    tally.show(rt.stdout())
}
