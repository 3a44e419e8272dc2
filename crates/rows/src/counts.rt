// Room for rows.
ghost use Rattle.std.specs.Prelude.{◌≡◌, ◌*◌, ◌≤◌, leb};

// [8.12] Whether a room has w numbers for each of n rows. It divides, since n * w could overflow.
pub fn has_rows(n: usize, w: usize, room: usize) -> bool
    requires { 1 ≤ w }
    ensures { result ≡ leb (n * w) room }
{
    n <= room / w
}
