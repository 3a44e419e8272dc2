// Distances as far as a limit, for a caller to whom all beyond it is alike.
ghost use Rattle.std.specs.Prelude.{◌≡◌, ◌+◌, ◌≤◌, eqb, length, drop};
ghost use Rattle.paper.specs.Points.{measure_of, distance};
ghost use Rattle.paper.specs.Limits.{most_coordinates};
ghost use Rattle.measure.specs.Limited.{limited};

use super::with_one;
use paper::points::Measure;

// [1.9] How far the points at `at` of a and at `bt` of b are apart, as far as the limit: nothing where it is more. No coordinate lessens a
// distance, so the first that brings the sum over the limit is the last that is read.
pub fn within(
    measure: u8,
    d: usize,
    a: &[i32],
    at: usize,
    b: &[i32],
    bt: usize,
    limit: u64,
) -> Option<u64>
    requires { (d ≤ most_coordinates) × ((at + d ≤ length a.now) × (bt + d ≤ length b.now)) }
    ensures { result ≡ limited limit (distance (measure_of measure) d (drop at a.now) (drop bt b.now)) }
{
    let m = Measure::numbered(measure);
    let mut sum = 0;
    for (x, y) in a[at..at + d].iter().zip(&b[bt..bt + d]) {
        sum = with_one(m, sum, *x, *y);
        if limit < sum {
            return None;
        }
    }
    Some(sum)
}

// [1.9] Whether these points are just x apart. They are measured as far as x: what is beyond it is not x.
#[tactic(auto, unfolding(crate::specs::Limited::limited))]
pub fn is_apart(measure: u8, d: usize, a: &[i32], at: usize, b: &[i32], bt: usize, x: u64) -> bool
    requires { (d ≤ most_coordinates) × ((at + d ≤ length a.now) × (bt + d ≤ length b.now)) }
    ensures { result ≡ eqb x (distance (measure_of measure) d (drop at a.now) (drop bt b.now)) }
{
    within(measure, d, a, at, b, bt, x) == Some(x)
}
