// The probes of many questions.
ghost use Rattle.std.specs.Prelude.{◌≡◌, ◌+◌, ◌*◌, ◌≤◌, length};
ghost use Rattle.nearby_many.specs.Many.{probe_at};

use paper::lent::LentTable;

// [4.16] The probe of question i: probes stand one after another.
pub fn probe_at<'a>(table: &LentTable<'_>, probes: &'a [i32], i: usize) -> &'a [i32]
    requires { i * table.now.table.d + table.now.table.d ≤ length probes.now }
    ensures { result.now ≡ probe_at table.now probes.now i }
{
    let d = table.header.d;
    let start = i * d;
    &probes[start..start + d]
}
