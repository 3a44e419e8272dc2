// A page in a room: the walk's keys, and the items that they stand for.
ghost use Rattle.std.specs.Prelude.{◌≡◌, ℕ, ◌+◌, ◌*◌, ◌/◌, ◌%◌, ◌<◌, ◌≤◌, List, [], ◌∷◌, length};
ghost use Rattle.std.proofs.lemmas.List.Edits.{sets};
ghost use Rattle.paper.specs.Limits.{most_claims};
ghost use Rattle.paper.specs.Tree.{reference_at, side_claim};
ghost use Rattle.walk_keep.specs.Numbers.{top, rank_at};
ghost use Rattle.walk_keep.specs.Kept.{Holding};
ghost use Rattle.walk.specs.Walking.{Bounded, dist_by, GiveAsk, Gives, PageAsk, AskFilled};

use crate::walking::Walk;
use paper::limits::MOST_CLAIMS;
use paper::orders::Order;
use rows::put;
use tree::rows::reference;
use walk_keep::asked::Asked;
use walk_keep::first_keys::KEYS;
use walk_keep::keys::rank;

// [2.6] Puts the item of key y at item i of the room.
fn give_one(references: &[u32], order: Order, y: u64, room: &mut [u64], i: usize)
    requires { ((y / most_claims ≤ top) × (y % most_claims < length references.now)) × (i * 3 + 3 ≤ length room.old) }
    ensures { room.new ≡ sets room.old (i * 3) (y % most_claims ∷ reference_at references.now (y % most_claims) ∷ rank_at order (y / most_claims) ∷ []) }
{
    let k = y % MOST_CLAIMS as u64;
    let x = rank(order, y / MOST_CLAIMS as u64);
    put(room, i * 3, [k, reference(references, k as usize), x]);
}

// [4.6] [4.8] Puts the items of the keys before the end at the front of the room, three numbers each, and gives how many they are.
fn give(references: &[u32], ask: &Asked, kept: &[u64], room: &mut [u64]) -> usize
    requires { GiveAsk ask.now references.now kept.now room.old }
    ensures { (dist : ℕ → ℕ) (l : List ℕ) → Holding ask.now dist kept.now l → Gives (reference_at references.now) dist l room.old room.new result }
{
    for (i, y) in kept.iter().enumerate() {
        if *y == ask.end {
            return i;
        }
        give_one(references, ask.order, *y, room, i);
    }
    kept.len()
}

// [4.6] [4.8] Puts the first so many admitted claims, in order, at the front of the room, three numbers each, and gives how many they are.
pub fn page(references: &[u32], walk: &Walk<'_>, room: &mut [u64]) -> usize
    requires { PageAsk references.now walk.now.coordinates.now walk.now.nodes.now walk.now.ask room.old }
    ensures filled { AskFilled walk.now.ask references.now (dist_by walk.now.ask walk.now.coordinates.now walk.now.probe.now) room.old room.new result }
    ensures bounded { Bounded walk.now.ask.measure walk.now.ask.d walk.now.coordinates.now walk.now.probe.now (side_claim walk.now.nodes.now 0 0) }
{
    let mut kept = [walk.ask.end; KEYS];
    walk.node(0, &mut kept);
    give(references, &walk.ask, &kept[..walk.ask.sought.size], room)
}
