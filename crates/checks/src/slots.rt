// A probe in eight slots.
ghost use Rattle.std.specs.Prelude.{◌≡◌, ◌≤◌, length};
ghost use Rattle.paper.specs.Fields.{in_slots};
ghost use Rattle.paper.specs.Limits.{most_coordinates};

use paper::limits::MOST_COORDINATES;

// [7.3] [5.14] A probe in eight slots, the unused ones 0.
pub fn padded(probe: &[i32]) -> [i32; MOST_COORDINATES]
    requires { length probe.now ≤ most_coordinates }
    ensures { result ≡ in_slots (length probe.now) probe.now }
{
    let mut slots = [0i32; MOST_COORDINATES];
    slots[..probe.len()].copy_from_slice(probe);
    slots
}
