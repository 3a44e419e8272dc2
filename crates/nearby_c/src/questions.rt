// The three questions to a table, each of which tests the table first.
ghost use Rattle.std.specs.Prelude.{◌≡◌, length};
ghost use Rattle.paper.specs.Tree.{lent};
ghost use Rattle.paper.specs.Outcomes.{Promise};
ghost use Rattle.paper.specs.Calls.{nearest_call, farthest_call, page_call, page_shown, put_page};
ghost use Rattle.c_lists.specs.Values.{order_in};
ghost use Rattle.c_values.specs.Values.{item_out, NothingOut, filled_out, place_of};

use c_lists::order_in;
use c_values::{Filled, FoundItem, Start};
use paper::lent::LentTable;
use paper::orders::Place;
use paper::tables::Table;

// [9.7] Refusals 1, 2, 5.
#[unsafe(no_mangle)]
pub extern "C" fn nearby_nearest(
    t: Table,
    references: &[u32],
    coordinates: &[i32],
    nodes: &[u64],
    probe: &[i32],
    reach: u64,
) -> FoundItem
    ensures { result ≡ item_out (nearest_call (lent t references.entry coordinates.entry nodes.entry) probe.now reach) }
{
    let table = LentTable::new(t, references, coordinates, nodes);
    FoundItem::from(nearby::nearest(&table, probe, reach))
}

// [9.7] Refusals 1, 2, 5.
#[unsafe(no_mangle)]
pub extern "C" fn nearby_farthest(
    t: Table,
    references: &[u32],
    coordinates: &[i32],
    nodes: &[u64],
    probe: &[i32],
) -> FoundItem
    ensures shown { result ≡ item_out (farthest_call (lent t references.entry coordinates.entry nodes.entry) probe.now) }
    ensures nothing { NothingOut t.count result }
{
    let table = LentTable::new(t, references, coordinates, nodes);
    FoundItem::from(nearby::farthest(&table, probe))
}

// [9.8] Refusals 1, 2, 5, 6, 7, 8, 12.
#[unsafe(no_mangle)]
pub extern "C" fn nearby_page(
    t: Table,
    references: &[u32],
    coordinates: &[i32],
    nodes: &[u64],
    order: u8,
    probe: &[i32],
    reach: u64,
    start: Start,
    size: usize,
    room: &mut [u64],
) -> Filled
    ensures { Promise (λ o. filled_out (page_shown o)) put_page (page_call (lent t references.entry coordinates.entry nodes.entry) (order_in order) probe.now reach (place_of start) size (length room.old)) room.old result room.new }
{
    let table = LentTable::new(t, references, coordinates, nodes);
    let place = Place::from(start);
    Filled::from(nearby::page(&table, order_in(order), probe, reach, place, size, room))
}
