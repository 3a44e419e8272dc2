// Knowing a table: its range and lent memory, and whether its nodes in use hold what entering its claims gives.
ghost use Rattle.std.specs.Prelude.{◌≡◌, ℕ, ◌*◌, ◌≤◌, List, length};
ghost use Rattle.paper.specs.Tree.{lent, grown, built, apart, store, fits, sound};
ghost use Rattle.tree.specs.BuiltNodes.{Located};
ghost use Rattle.tree.specs.Soundness.{MemoryHolds};
ghost use Rattle.paper.specs.Limits.{most_claims};

use super::entering::enter;
use checks::in_range;
use paper::limits::{MOST_CLAIMS, SCRATCH_NODES};
use paper::tables::Table;

// [8.1] Whether the table is in range, and the lent memory holds what it needs. It comes in parts here, as to whoever makes a table of them.
#[tactic(auto, using(crate::proofs::TestedTables::few_points, paper::proofs::Ranges::range_is), unfolding(paper::specs::Tree::fits))]
pub fn is_fit(t: Table, references: &[u32], coordinates: &[i32], nodes: &[u64]) -> bool
    ensures { result ≡ fits (lent t references.entry coordinates.entry nodes.entry) }
{
    let c = t.capacity;
    in_range(t.measure, t.d)
        && (1..=MOST_CLAIMS).contains(&c)
        && c <= references.len()
        && c * t.d <= coordinates.len()
        && c * 6 <= nodes.len()
}

// Enters claims 0 to n - 1 one by one, and gives the number of nodes then in use.
fn rebuild(nodes: &mut [u64], measure: u8, d: usize, coordinates: &[i32], n: usize) -> usize
    requires { ((n * 6 ≤ length nodes.old) × (n ≤ most_claims)) × Located d n coordinates.now }
    ensures built { grown nodes.new result ≡ built (apart measure d coordinates.now) n nodes.old }
    ensures few { result ≤ n }
{
    let mut used = 0;
    for k in 0..n {
        used = enter(nodes, measure, d, coordinates, used, k as u64);
    }
    used
}

// [3.12] [8.2] Whether the table is sound. Its claims are entered again, into nodes of its own, and the nodes in use are compared.
pub fn is_sound(t: Table, coordinates: &[i32], nodes: &[u64]) -> bool
    requires { MemoryHolds t (length coordinates.now) (length nodes.now) }
    ensures { (references : List ℕ) → result ≡ sound (store t references coordinates.now nodes.now) }
{
    let n = t.count;
    if t.capacity < n {
        return false;
    }
    let mut scratch = [0u64; SCRATCH_NODES];
    let used = rebuild(&mut scratch, t.measure, t.d, coordinates, n);
    let filled = used * 6;
    used == t.used && scratch[..filled] == nodes[..filled]
}
