// Entering one claim, from the root.
ghost use Rattle.std.specs.Prelude.{◌≡◌, ◌+◌, ◌<◌, max};
ghost use Rattle.paper.specs.Tree.{field_at, put_field, entered, apart};
ghost use Rattle.tree.specs.BuiltNodes.{Inside, Enterable};

use super::measuring::from_both;
use super::nodes::{field, make, store};

// [3.9] Has the far distance of side s of node m reach as far as `distance`.
fn widen(nodes: &mut [u64], m: usize, s: usize, distance: u64)
    requires { (s < 2) × Inside nodes.old m }
    ensures { nodes.new ≡ put_field nodes.old m (2 + s) (max (field_at nodes.old m (2 + s)) distance) }
{
    let far = field(nodes, m, 2 + s);
    store(nodes, m, 2 + s, far.max(distance));
}

// [3.5] [3.7] [3.8] [3.10] [3.11] Enters claim k, below the nearer side of each node, the left one of two as near, and gives the number
// of nodes then in use.
pub fn enter(
    nodes: &mut [u64],
    measure: u8,
    d: usize,
    coordinates: &[i32],
    used: usize,
    k: u64,
) -> usize
    requires { Enterable nodes.old used d coordinates.now k }
    ensures nodes { nodes.new ≡ (entered (apart measure d coordinates.now) used k nodes.old).nodes }
    ensures used { result ≡ (entered (apart measure d coordinates.now) used k nodes.old).used }
{
    if used == 0 {
        make(nodes, 0, k);
        return 1;
    }
    // No index is counted: each node leads to the next.
    let mut m = 0;
    loop {
        if field(nodes, m, 1) == 0 {
            store(nodes, m, 1, k + 1);
            return used;
        }
        let left = field(nodes, m, 0);
        let right = field(nodes, m, 1);
        let to = from_both(
            measure,
            d,
            coordinates,
            (left - 1) as usize * d,
            (right - 1) as usize * d,
            k as usize * d,
        );
        if to.left <= to.right {
            let below = field(nodes, m, 4);
            widen(nodes, m, 0, to.left);
            if below == 0 {
                store(nodes, m, 4, used as u64 + 1);
                make(nodes, used, k);
                return used + 1;
            }
            m = (below - 1) as usize;
            continue;
        }
        let below = field(nodes, m, 5);
        widen(nodes, m, 1, to.right);
        if below == 0 {
            store(nodes, m, 5, used as u64 + 1);
            make(nodes, used, k);
            return used + 1;
        }
        m = (below - 1) as usize;
    }
}
