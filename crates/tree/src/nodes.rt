// Nodes in lent memory. [3.4] A node is six numbers: of side s the claim (its number plus one, or 0) is field s, the far distance
// field 2 + s, and the node of the node below (its number plus one, or 0) field 4 + s. They are numbers and not boxes or structs: the memory is
// what a C caller lends.
ghost use Rattle.std.specs.Prelude.{◌≡◌, ◌+◌, ◌<◌, ◌^◌};
ghost use Rattle.paper.specs.Tree.{field_at, put_field, new_node};
ghost use Rattle.tree.specs.BuiltNodes.{Inside};

// Field f of node m.
pub fn field(nodes: &[u64], m: usize, f: usize) -> u64
    requires { (f < 6) × Inside nodes.now m }
    ensures { result ≡ field_at nodes.now m f }
{
    nodes[m * 6 + f]
}

// Stores v in field f of node m.
pub fn store(nodes: &mut [u64], m: usize, f: usize, v: u64)
    requires { (f < 6) × Inside nodes.old m }
    ensures { nodes.new ≡ put_field nodes.old m f v }
{
    nodes[m * 6 + f] = v;
}

// [3.6] Makes node w anew, with claim k on its left. With one copy of six numbers entering took 1.04 to 1.12 times the time.
pub fn make(nodes: &mut [u64], w: usize, k: u64)
    requires { (k + 1 < 2 ^ 64) × Inside nodes.old w }
    ensures { nodes.new ≡ new_node nodes.old w k }
{
    store(nodes, w, 0, k + 1);
    for f in 1..6 {
        store(nodes, w, f, 0);
    }
}
