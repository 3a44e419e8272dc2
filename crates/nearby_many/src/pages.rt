// Many pages, each in an order of its own.
ghost use Rattle.std.specs.Prelude.{◌≡◌, ◌*◌, length};
ghost use Rattle.paper.specs.Outcomes.{Promise, number, told};
ghost use Rattle.paper.specs.Calls.{page_shown};
ghost use Rattle.nearby_many.specs.Rows.{instead};
ghost use Rattle.nearby_many.specs.Pages.{page_at, put_page_items, both_rooms, pages_refusal, pages_each, OnePage};

use crate::counts::test_many;
use crate::probes::probe_at;
use checks::{is_whole, size_holds};
use paper::lent::LentTable;
use paper::orders::Paged;
use paper::refusals::Refusal;
use rows::{PLACE_NUMBERS, has_rows, order_at, place_at, put_page};
use walk_tested::page_here;

// [4.16] [4.19] Question i for a page, whose items stand in row i.
fn page_at(
    table: &LentTable<'_>,
    probes: &[i32],
    reaches: &[u64],
    places: &[u64],
    size: usize,
    i: usize,
    items: &mut [u64],
) -> Result<Paged, Refusal>
    requires { OnePage table.now (length probes.now) (length reaches.now) (length places.now) size i (length items.old) }
    ensures shown { told result ≡ page_shown (page_at table.now probes.now reaches.now places.now size i) }
    ensures filled { items.new ≡ put_page_items (page_at table.now probes.now reaches.now places.now size) (size * 3) i items.old }
{
    let width = size * 3;
    let start = i * width;
    page_here(
        table,
        order_at(places, i),
        probe_at(table, probes, i),
        reaches[i],
        place_at(places, i),
        size,
        &mut items[start..start + width],
    )
}

// [9.17] Refusals 1, 2, 5, 6, 12: whether n pages of a size may be asked for.
fn test_pages(
    table: &LentTable<'_>,
    probes: usize,
    n: usize,
    places: usize,
    size: usize,
    outcomes: usize,
    items: usize,
) -> Result<(), Refusal>
    ensures { number (told result) ≡ pages_refusal table.now probes n places size outcomes items }
{
    test_many(table, probes, n)?;
    if !is_whole(PLACE_NUMBERS, n, places) {
        return Err(Refusal::Coordinates);
    }
    if !size_holds(size) {
        return Err(Refusal::PageSize);
    }
    if !has_rows(n, 3, outcomes) {
        return Err(Refusal::RoomTooShort);
    }
    if !has_rows(n, size * 3, items) {
        return Err(Refusal::RoomTooShort);
    }
    Ok(())
}

// [9.17] [4.18] [4.19] Refusals 1, 2, 5, 6, 12, and 7, 8 of each question. For each reach there are a probe of d coordinates, five numbers of
// order and place, an outcome of three numbers and room for a page of items.
pub fn pages_each(
    table: &LentTable<'_>,
    probes: &[i32],
    reaches: &[u64],
    places: &[u64],
    size: usize,
    outcomes: &mut [u64],
    items: &mut [u64],
) -> Result<(), Refusal>
    ensures { Promise number instead (pages_each table.now probes.now reaches.now places.now size (both_rooms outcomes.old items.old))
        (both_rooms outcomes.old items.old) (number (told result)) (both_rooms outcomes.new items.new) }
{
    test_pages(
        table,
        probes.len(),
        reaches.len(),
        places.len(),
        size,
        outcomes.len(),
        items.len(),
    )?;
    for i in 0..reaches.len() {
        let page = page_at(table, probes, reaches, places, size, i, items);
        put_page(outcomes, i, page);
    }
    Ok(())
}
