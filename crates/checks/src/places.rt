// Where a page starts.
ghost use Rattle.std.specs.Prelude.{◌≡◌, leb};
ghost use Rattle.paper.specs.Orders.{snapshot_of};
ghost use Rattle.paper.specs.Codec.{place_in};

use paper::lines::Scope;
use paper::orders::{Mark, Place};

// [5.8] Where the page starts that an ask or an answer is about.
#[tactic(auto, unfolding(paper::specs::Codec::place_in))]
pub fn place_of(p: Scope) -> Place
    ensures { result ≡ place_in p }
{
    if p.from == 0 {
        return Place::Start;
    }
    Place::After(p.snapshot as u64, Mark::at(p.distance, p.number as u64))
}

// [8.7] Whether the snapshot is within the count. At the start it is the count itself.
pub fn snapshot_holds(place: Place, count: usize) -> bool
    ensures { result ≡ leb (snapshot_of place count) count }
{
    match place {
        Place::Start => true,
        Place::After(snapshot, _) => snapshot <= count as u64,
    }
}
