// Distances of points in lent memory, exact for all coordinates.
#![tactic(auto)]

ghost use Rattle.std.specs.Prelude.{◌≡◌, ◌+◌, ◌≤◌, ◌<◌, ◌-ℤ◌, nat_abs, length, drop};
ghost use Rattle.paper.specs.Points.{measure_of, weigh, joined, greatest_of};
ghost use Rattle.paper.specs.Points.{distance as Points·distance};
ghost use Rattle.paper.specs.Limits.{most_coordinates};

use metrics::{CityBlock, Hamming, Maximum, counted};
use paper::points::Measure;

pub mod limits;
pub mod metrics;
pub mod pairs;

// [1.6] [1.7] [1.8] One coordinate more.
#[tactic(auto, unfolding(paper::specs::Points::joined, paper::specs::Points::weigh))]
fn with_one(m: Measure, sum: u64, x: i32, y: i32) -> u64
    requires { sum ≤ 30064771065 }
    ensures { (result ≡ joined m sum (weigh m x y)) × (result ≤ sum + 4294967295) }
{
    match m {
        Measure::CityBlock => counted::<CityBlock>(sum, x, y),
        Measure::Maximum => counted::<Maximum>(sum, x, y),
        Measure::Hamming => counted::<Hamming>(sum, x, y),
    }
}

// [1.9] The distance of the points at `at` of a and at `bt` of b, no more than the measure's greatest. The measure is the same from coordinate to coordinate, so the
// compiler takes the choice out of the loop.
fn measured(m: Measure, d: usize, a: &[i32], at: usize, b: &[i32], bt: usize) -> u64
    requires { (d ≤ most_coordinates) × ((at + d ≤ length a.now) × (bt + d ≤ length b.now)) }
    ensures exact { result ≡ Points·distance m d (drop at a.now) (drop bt b.now) }
    ensures bounded { result ≤ greatest_of m d }
{
    let mut sum = 0;
    for (x, y) in a[at..at + d].iter().zip(&b[bt..bt + d]) {
        sum = with_one(m, sum, *x, *y);
    }
    sum
}

// The same, by the number that tables and lines name a measure by.
pub fn distance(measure: u8, d: usize, a: &[i32], at: usize, b: &[i32], bt: usize) -> u64
    requires { (d ≤ most_coordinates) × ((at + d ≤ length a.now) × (bt + d ≤ length b.now)) }
    ensures exact { result ≡ Points·distance (measure_of measure) d (drop at a.now) (drop bt b.now) }
    ensures bounded { result ≤ greatest_of (measure_of measure) d }
{
    measured(Measure::numbered(measure), d, a, at, b, bt)
}
