// How far two claims are from a third.
ghost use Rattle.std.specs.Prelude.{◌+◌, ◌≤◌, length};
ghost use Rattle.paper.specs.Limits.{most_coordinates};
ghost use Rattle.paper.specs.Points.{measure_of};
ghost use Rattle.measure.specs.Measured.{TwoAt, PairIs};

use measure::pairs::{self, Pair};

// How far the claims at `left` and at `right` of the coordinates are from the one at `bt`.
pub fn from_both(measure: u8, d: usize, a: &[i32], left: usize, right: usize, bt: usize) -> Pair
    requires { (d ≤ most_coordinates) × (TwoAt d a.now left right × (bt + d ≤ length a.now)) }
    ensures { PairIs (measure_of measure) d a.now left right a.now bt result.left result.right }
{
    pairs::from_both(measure, d, a, left, right, a, bt)
}
