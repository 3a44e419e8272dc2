// The three questions, and the filled front of a room.
ghost use Rattle.std.specs.Prelude.{◌≡◌, ◌*◌, length, take};
ghost use Rattle.paper.specs.Outcomes.{Promise, told};
ghost use Rattle.paper.specs.Tree.{lent};
ghost use Rattle.paper.specs.Calls.{nearest_call, farthest_call, NothingJust, page_call, page_shown, put_page};

use crate::tables::test_table;
use checks::size_holds;
use paper::lent::LentTable;
use paper::orders::{Item, Order, Paged, Place};
use paper::refusals::Refusal;

// [9.7] [4.1] Refusals 1, 2, 5.
pub fn nearest(table: &LentTable<'_>, probe: &[i32], reach: u64) -> Result<Option<Item>, Refusal>
    ensures { told result ≡ nearest_call table.now probe.now reach }
{
    test_table(table)?;
    if probe.len() != table.header.d {
        return Err(Refusal::Coordinates);
    }
    Ok(walk::questions::nearest(table, probe, reach))
}

// [9.7] [4.2] Refusals 1, 2, 5.
pub fn farthest(table: &LentTable<'_>, probe: &[i32]) -> Result<Option<Item>, Refusal>
    ensures shown { told result ≡ farthest_call table.now probe.now }
    ensures nothing { NothingJust table.now.table.count (told result) }
{
    test_table(table)?;
    if probe.len() != table.header.d {
        return Err(Refusal::Coordinates);
    }
    Ok(walk::questions::farthest(table, probe))
}

// [9.8] [4.6] Refusals 1, 2, 5, 6, 7, 8, 12.
pub fn page(
    table: &LentTable<'_>,
    order: Order,
    probe: &[i32],
    reach: u64,
    place: Place,
    size: usize,
    room: &mut [u64],
) -> Result<Paged, Refusal>
    ensures { Promise page_shown put_page (page_call table.now order probe.now reach place size (length room.old)) room.old (told result) room.new }
{
    test_table(table)?;
    if probe.len() != table.header.d {
        return Err(Refusal::Coordinates);
    }
    if !size_holds(size) {
        return Err(Refusal::PageSize);
    }
    walk_tested::page_here(table, order, probe, reach, place, size, room)
}

// [9.9] [4.9] The filled front of a room that holds `count` items: a part of the lent room. It refuses nothing.
pub fn front<'a>(room: &'a [u64], count: usize) -> &'a [u64]
    ensures { result.now ≡ take (3 * count) room.now }
{
    rows::front(room, count)
}
