// An order as one number, a key: the rank of a claim's distance times the most claims, and its number. Comparing keys compares ranks, and at
// equal ranks numbers. No key has more than 48 bits. What is chosen here is chosen without a branch, which the compiler makes of a `match` of
// two such numbers: in a walk, half of the branches on distances would be guessed wrong.
#![tactic(auto, unfolding(crate::specs::Numbers::rank_at, crate::specs::Numbers::half_at))]

ghost use Rattle.std.specs.Prelude.{◌≡◌, ◌+◌, ◌*◌, ◌<◌, ◌≤◌};
ghost use Rattle.paper.specs.Limits.{most_claims};
ghost use Rattle.walk_keep.specs.Numbers.{top, rank_at, key_at, half_at};

use paper::limits::MOST_CLAIMS;
use paper::orders::Order;

// The greatest rank that a key has place for. No distance reaches it.
pub const TOP: u64 = 0xf_ffff_ffff;

// [2.1] [2.2] The order's rank of a distance.
pub fn rank(order: Order, x: u64) -> u64
    requires { x ≤ top }
    ensures is { result ≡ rank_at order x }
    ensures small { result ≤ top }
{
    match order {
        Order::Near => x,
        Order::Far => TOP - x,
    }
}

// [2.3] The key of rank r and number k.
pub fn key(r: u64, k: u64) -> u64
    requires { (r ≤ top + 1) × (k ≤ most_claims) }
    ensures { result ≡ key_at r k }
{
    r * MOST_CLAIMS as u64 + k
}

// [4.14] The least rank below side s of a node whose other claim is nearer by `apart`: a claim there is on the side's own half. Near order only.
pub fn half(order: Order, apart: u64, s: u64) -> u64
    requires { (apart ≤ top) × (s < 2) }
    ensures is { result ≡ half_at order apart s }
    ensures small { result ≤ top }
{
    match order {
        Order::Near => (apart + 1 + s) / 2,
        Order::Far => 0,
    }
}
