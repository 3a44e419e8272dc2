// How far the claim of a side may rank. Beyond its limit, neither it nor a claim below it comes before the last key kept.
ghost use Rattle.std.specs.Prelude.{◌≡◌, ◌&&◌};
ghost use Rattle.walk_keep.specs.Skips.{beyond_limit};

use paper::limits::MOST_CLAIMS;

// [4.13] Whether the claims of two sides, at ranks x and y, are both beyond their limits. There is one branch for both: one for each would be
// guessed wrong more often.
pub fn both_beyond(last: u64, x: u64, xfar: u64, y: u64, yfar: u64) -> bool
    ensures { result ≡ (beyond_limit last xfar x && beyond_limit last yfar y) }
{
    last / (MOST_CLAIMS as u64) < x.saturating_sub(xfar).min(y.saturating_sub(yfar))
}
