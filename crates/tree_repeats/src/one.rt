// One reference, looked for among those of a table.
ghost use Rattle.std.specs.Prelude.{◌≡◌, ◌≤◌, length, take};
ghost use Rattle.paper.specs.References.{is_among};

// [3.17] Whether r is the reference of one of the first n claims. All of them are looked at: without an early end the compiler looks at
// several at a time.
pub fn is_known(references: &[u32], n: usize, r: u32) -> bool
    requires { n ≤ length references.now }
    ensures { result ≡ is_among (take n references.now) r }
{
    references[..n]
        .iter()
        .fold(false, |known, x| known | (*x == r))
}
