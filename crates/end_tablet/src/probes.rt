// [7.3] The probe of a list, in eight slots.
ghost use Rattle.std.specs.Prelude.{◌≡◌, ◌≤◌, length};
ghost use Rattle.paper.specs.Ends.{same_probe};
ghost use Rattle.paper.specs.Lists.{unused_zero};

// [7.9] Whether the slots behind the first d hold 0.
pub fn unused_zero(d: usize, probe: &[i32]) -> bool
    requires { d ≤ length probe.now }
    ensures { result ≡ unused_zero d probe.now }
{
    probe[d..].iter().all(|z| *z == 0)
}

// Whether the first d coordinates are the same.
pub fn same_probe(d: usize, p: &[i32], q: &[i32]) -> bool
    requires { (d ≤ length p.now) × (d ≤ length q.now) }
    ensures { result ≡ same_probe d p.now q.now }
{
    p[..d] == q[..d]
}
