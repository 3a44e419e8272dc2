// How far two claims are from a third point, compiled for each metric and each number of coordinates: most of a walk's time and of
// entering's goes into these distances.
ghost use Rattle.std.specs.Prelude.{◌+◌, ◌≤◌, length};
ghost use Rattle.paper.specs.Limits.{most_coordinates};
ghost use Rattle.paper.specs.Points.{measure_of};
ghost use Rattle.measure.specs.Measured.{PointsAt, DistanceIs, TwoAt, PairIs};

use super::metrics::{CityBlock, Hamming, Maximum, Metric, counted};

#[derive(Clone, Copy)]
pub struct Pair {
    pub left: u64,
    pub right: u64,
}

// [1.9] The distance of two points of D coordinates. As D is a number, the compiler writes the loop out, and makes vectors of four
// coordinates and more.
fn apart<M: Metric, const D: usize>(a: &[i32], at: usize, b: &[i32], bt: usize) -> u64
    requires narrow { D ≤ most_coordinates }
    requires points { PointsAt D a.now at b.now bt }
    ensures { DistanceIs M.measure D a.now at b.now bt result }
{
    let mut sum = 0;
    for (x, y) in a[at..at + D].iter().zip(&b[bt..bt + D]) {
        sum = counted::<M>(sum, *x, *y);
    }
    sum
}

// How far two points of D coordinates are from the one at `bt` of b.
#[inline(always)]
fn both<M: Metric, const D: usize>(
    a: &[i32],
    left: usize,
    right: usize,
    b: &[i32],
    bt: usize,
) -> Pair
    requires narrow { D ≤ most_coordinates }
    requires claims { TwoAt D a.now left right }
    requires point { bt + D ≤ length b.now }
    ensures { PairIs M.measure D a.now left right b.now bt result.left result.right }
{
    Pair {
        left: apart::<M, D>(a, left, b, bt),
        right: apart::<M, D>(a, right, b, bt),
    }
}

// The same, by a call.
#[inline(never)]
fn both_by_call<M: Metric, const D: usize>(
    a: &[i32],
    left: usize,
    right: usize,
    b: &[i32],
    bt: usize,
) -> Pair
    requires narrow { D ≤ most_coordinates }
    requires claims { TwoAt D a.now left right }
    requires point { bt + D ≤ length b.now }
    ensures { PairIs M.measure D a.now left right b.now bt result.left result.right }
{
    both::<M, D>(a, left, right, b, bt)
}

// The same for any number of coordinates. Four to seven go by a call: with none, the compiler makes vectors of the two distances in place of
// a point's coordinates, and nearest by eight coordinates takes 1.25 to 1.4 times the instructions.
#[inline(always)]
fn by_metric<M: Metric>(
    d: usize,
    a: &[i32],
    left: usize,
    right: usize,
    b: &[i32],
    bt: usize,
) -> Pair
    requires narrow { d ≤ most_coordinates }
    requires claims { TwoAt d a.now left right }
    requires point { bt + d ≤ length b.now }
    ensures { PairIs M.measure d a.now left right b.now bt result.left result.right }
{
    match d {
        1 => both::<M, 1>(a, left, right, b, bt),
        2 => both::<M, 2>(a, left, right, b, bt),
        3 => both::<M, 3>(a, left, right, b, bt),
        4 => both_by_call::<M, 4>(a, left, right, b, bt),
        5 => both_by_call::<M, 5>(a, left, right, b, bt),
        6 => both_by_call::<M, 6>(a, left, right, b, bt),
        7 => both_by_call::<M, 7>(a, left, right, b, bt),
        8 => both::<M, 8>(a, left, right, b, bt),
        _ => both::<M, 0>(a, left, right, b, bt),
    }
}

// How far the claims at `left` and at `right` of a are from the point at `bt` of b. The measure is tested by its number: after a match on
// `Measure::numbered` nearest takes 1.02 to 1.06 times the instructions, as the compiler then chooses twice.
#[inline(always)]
#[tactic(auto, unfolding(paper::specs::Points::measure_of))]
pub fn from_both(
    measure: u8,
    d: usize,
    a: &[i32],
    left: usize,
    right: usize,
    b: &[i32],
    bt: usize,
) -> Pair
    requires narrow { d ≤ most_coordinates }
    requires claims { TwoAt d a.now left right }
    requires point { bt + d ≤ length b.now }
    ensures { PairIs (measure_of measure) d a.now left right b.now bt result.left result.right }
{
    match measure {
        1 => by_metric::<CityBlock>(d, a, left, right, b, bt),
        2 => by_metric::<Maximum>(d, a, left, right, b, bt),
        _ => by_metric::<Hamming>(d, a, left, right, b, bt),
    }
}
