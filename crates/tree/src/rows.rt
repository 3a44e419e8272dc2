// A claim's row in lent memory: what it holds beside the claim's place.
ghost use Rattle.std.specs.Prelude.{◌≡◌, ◌<◌, length};
ghost use Rattle.paper.specs.Tree.{reference_at, with_reference};

// The reference of claim k, at the width of an item's numbers.
pub fn reference(references: &[u32], k: usize) -> u64
    requires { k < length references.now }
    ensures { result ≡ reference_at references.now k }
{
    u64::from(references[k])
}

// Makes it `reference`.
pub fn put_reference(references: &mut [u32], k: usize, reference: u32)
    requires { k < length references.old }
    ensures { references.new ≡ with_reference references.old k reference }
{
    references[k] = reference;
}
