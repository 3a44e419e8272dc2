// Numbers that stand in groups of d: a run's coordinates, the probes of many questions.
ghost use Rattle.std.specs.Prelude.{◌≡◌, ◌*◌, ◌≤◌, eqb};

// [8.5] Whether there are d of them for each of so many. Where the product overflows, no memory holds so many.
pub fn is_whole(d: usize, given: usize, numbers: usize) -> bool
    requires { 1 ≤ d }
    ensures { result ≡ eqb numbers (d * given) }
{
    d.checked_mul(given) == Some(numbers)
}
