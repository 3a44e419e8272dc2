// The ranges of measure and d, and of page sizes.
ghost use Rattle.std.specs.Prelude.{◌≡◌};
ghost use Rattle.paper.specs.Points.{in_range};
ghost use Rattle.paper.specs.Ends.{size_holds};

use paper::limits::{MOST_COORDINATES, MOST_PAGE};
use paper::points::Measure;

// [1.3] [1.5] Whether there is such a measure, and d is in range: the first part of refusal 1 for tables and lists, and of 10 for lines.
#[tactic(auto, unfolding(paper::specs::Points::in_range))]
pub fn in_range(measure: u8, d: usize) -> bool
    ensures { result ≡ in_range measure d }
{
    (Measure::FIRST..=Measure::LAST).contains(&measure) && (1..=MOST_COORDINATES).contains(&d)
}

// [4.3] [8.6] Whether a page may have so many items.
pub fn size_holds(size: usize) -> bool
    ensures { result ≡ size_holds size }
{
    (1..=MOST_PAGE).contains(&size)
}
