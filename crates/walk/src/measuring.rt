// How far two claims are from the probe.
ghost use Rattle.std.specs.Prelude.{◌≤◌};
ghost use Rattle.paper.specs.Limits.{most_coordinates};
ghost use Rattle.paper.specs.Points.{measure_of};
ghost use Rattle.measure.specs.Measured.{TwoAt, PairIs};

use measure::pairs::{self, Pair};

// How far the claims at `left` and at `right` of the coordinates are from the probe.
pub fn from_both(measure: u8, d: usize, a: &[i32], left: usize, right: usize, b: &[i32; 8]) -> Pair
    requires { (d ≤ most_coordinates) × TwoAt d a.now left right }
    ensures { PairIs (measure_of measure) d a.now left right b.now 0 result.left result.right }
{
    pairs::from_both(measure, d, a, left, right, b, 0)
}
