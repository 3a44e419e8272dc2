// A flag as a number.
ghost use Rattle.std.specs.Prelude.{◌≡◌};
ghost use Rattle.paper.specs.Fields.{flag_of};

// [5.8] [9.19] A flag as a line and C have it.
pub fn flag(b: bool) -> u8
    ensures { result ≡ flag_of b }
{
    u8::from(b)
}
