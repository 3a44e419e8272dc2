// Many questions for the nearest or the farthest claim.
ghost use Rattle.std.specs.Prelude.{◌≡◌, ◌<◌, ℕ, Option, length};
ghost use Rattle.paper.specs.declared.orders.Item.{Item};
ghost use Rattle.paper.specs.Outcomes.{Promise, number, told};
ghost use Rattle.nearby_many.specs.Rows.{instead};
ghost use Rattle.nearby_many.specs.Many.{nearest_at, farthest_at, nearest_each, farthest_each, firsts_call, Asked, Finds};

use crate::counts::test_many;
use crate::probes::probe_at;
use paper::lent::LentTable;
use paper::orders::Item;
use paper::refusals::Refusal;
use rows::{has_rows, put_found};

// Question i for the nearest claim.
fn nearest_at(table: &LentTable<'_>, probes: &[i32], reaches: &[u64], i: usize) -> Option<Item>
    requires asked { Asked table.now (length probes.now) i }
    requires reach { i < length reaches.now }
    ensures { result ≡ nearest_at table.now probes.now reaches.now i }
{
    walk::questions::nearest(table, probe_at(table, probes, i), reaches[i])
}

// Question i for the farthest claim.
fn farthest_at(table: &LentTable<'_>, probes: &[i32], i: usize) -> Option<Item>
    requires { Asked table.now (length probes.now) i }
    ensures { result ≡ farthest_at table.now probes.now i }
{
    walk::questions::farthest(table, probe_at(table, probes, i))
}

// n questions for an item each, whatever finds it.
fn firsts_each<F: Fn(usize) -> Option<Item>>(
    table: &LentTable<'_>,
    probes: usize,
    n: usize,
    find: F,
    out: &mut [u64],
) -> Result<(), Refusal>
    requires { (i : ℕ) → i < n → Asked table.now probes i → F.pre find i }
    ensures { (answer : ℕ → Option Item) → Finds (F.post find) n answer
        → Promise number instead (firsts_call table.now probes n answer out.old) out.old (number (told result)) out.new }
{
    test_many(table, probes, n)?;
    if !has_rows(n, 4, out.len()) {
        return Err(Refusal::RoomTooShort);
    }
    for i in 0..n {
        put_found(out, i, find(i));
    }
    Ok(())
}

// [9.16] [4.17] Refusals 1, 2, 5, 12. There is a probe of d coordinates for each reach, and a row of four numbers for each answer.
pub fn nearest_each(
    table: &LentTable<'_>,
    probes: &[i32],
    reaches: &[u64],
    out: &mut [u64],
) -> Result<(), Refusal>
    ensures { Promise number instead (nearest_each table.now probes.now reaches.now out.old) out.old (number (told result)) out.new }
{
    let find = |i| nearest_at(table, probes, reaches, i);
    firsts_each(table, probes.len(), reaches.len(), find, out)
}

// [9.16] [4.17] Refusals 1, 2, 5, 12. There are n probes of d coordinates, and a row of four numbers for each answer.
pub fn farthest_each(
    table: &LentTable<'_>,
    probes: &[i32],
    n: usize,
    out: &mut [u64],
) -> Result<(), Refusal>
    ensures { Promise number instead (farthest_each table.now probes.now n out.old) out.old (number (told result)) out.new }
{
    let find = |i| farthest_at(table, probes, i);
    firsts_each(table, probes.len(), n, find, out)
}
