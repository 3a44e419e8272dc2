// Entering claims in runs, where a table has node for them. What may be entered is tested above. Memory that is written stays parameters: of a slice
// behind a `&mut` in a struct each contract would also have to say that the reference is the same (DECISIONS, "A table that is only read").
ghost use Rattle.std.specs.Prelude.{◌≡◌, ◌+◌, ◌*◌, ◌≤◌, length, drop};
ghost use Rattle.std.proofs.Math.Seq.{paste};
ghost use Rattle.paper.specs.Points.{point};
ghost use Rattle.paper.specs.Tree.{lent_mut};
ghost use Rattle.paper.specs.Runs.{added, added_run};
ghost use Rattle.tree.specs.Soundness.{Roomy};

use super::entering::enter;
use super::rows::put_reference;
use paper::tables::Table;

// Copies n coordinates from `from` of the given points to `at` of the lent memory, one by one: of a slice's own copy the compiler makes a call of
// `memmove`, as both are lent, and the archive for C needs nothing from outside but `memcpy` and `memset`.
fn copy(coordinates: &mut [i32], at: usize, points: &[i32], from: usize, n: usize)
    requires { (at + n ≤ length coordinates.old) × (from + n ≤ length points.now) }
    ensures { coordinates.new ≡ paste coordinates.old at (drop from points.now) n }
{
    for i in 0..n {
        coordinates[at + i] = points[from + i];
    }
}

// [3.14] Enters claim i of a run into a sound table with node for it.
pub fn add(
    t: Table,
    references: &mut [u32],
    coordinates: &mut [i32],
    nodes: &mut [u64],
    reference: u32,
    points: &[i32],
    i: usize,
) -> Table
    requires { Roomy (lent_mut t references coordinates nodes) 1 × (i * t.d + t.d ≤ length points.now) }
    ensures { lent_mut result references.exit coordinates.exit nodes.exit
        ≡ added (lent_mut t references.entry coordinates.entry nodes.entry) reference (point t.d points.now i) }
{
    let k = t.count;
    let d = t.d;
    put_reference(references, k, reference);
    copy(coordinates, k * d, points, i * d, d);
    let used = enter(nodes, t.measure, d, coordinates, t.used, k as u64);
    Table {
        count: k + 1,
        used,
        ..t
    }
}

// [3.15] Enters a run of claims into a sound table with node for it.
pub fn add_run(
    t: Table,
    references: &mut [u32],
    coordinates: &mut [i32],
    nodes: &mut [u64],
    given: &[u32],
    points: &[i32],
) -> Table
    requires { Roomy (lent_mut t references coordinates nodes) (length given.now) × (length points.now ≡ t.d * length given.now) }
    ensures { lent_mut result references.exit coordinates.exit nodes.exit
        ≡ added_run given.now points.now (length given.now) (lent_mut t references.entry coordinates.entry nodes.entry) }
{
    let mut held = t;
    for (i, reference) in given.iter().enumerate() {
        held = add(held, references, coordinates, nodes, *reference, points, i);
    }
    held
}
