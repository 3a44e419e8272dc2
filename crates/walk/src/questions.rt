// Nearest, farthest and page of a sound table, by the definitions in paper/specs.
ghost use Rattle.std.specs.Prelude.{◌≡◌, ℕ, ◌+◌, ◌≤◌, List};
ghost use Rattle.paper.specs.declared.orders.Order.{Order};
ghost use Rattle.paper.specs.declared.orders.Order.TheVariants.{Near, Far};
ghost use Rattle.paper.specs.Orders.{listed, page_of, first_of, nearest_of, farthest_of, mark_holds};
ghost use Rattle.paper.specs.Tree.{claims_from, claims_in};
ghost use Rattle.paper.specs.Outcomes.{gives};
ghost use Rattle.paper.specs.Calls.{table_query, NothingJust};
ghost use Rattle.paper.specs.Limits.{most_page};
ghost use Rattle.walk.specs.Walking.{dist_of, InSight, RootBounded};
ghost use Rattle.walk.specs.Asking.{Answerable, Pageable, Markable, Fills, PageFound, PageIs};

use crate::pages::page;
use crate::walking::Walk;
use checks::padded;
use paper::lent::LentTable;
use paper::limits::SCRATCH_ITEMS;
use paper::orders::{Item, Order, Paged, Place};
use paper::points::Measure;
use paper::tables::Table;
use rows::join;
use walk_keep::asked::Asked;
use walk_keep::pages::counted;

// [4.6] [4.8] The first `size` claims after the place, in order, at the front of the room, three numbers each: number, reference,
// distance. Gives how many they are.
pub fn fill(
    table: &LentTable<'_>,
    order: Order,
    probe: &[i32],
    reach: u64,
    place: Place,
    size: usize,
    room: &mut [u64],
) -> usize
    requires answerable { Answerable table.now probe.now }
    requires pageable { Pageable table.now.table place size room.old }
    ensures filled { Fills (page_of (table_query table.now.table order probe.now reach) (claims_in table.now) place size) room.old room.new result }
    ensures bounded { RootBounded table.now.table.used table.now.table.measure table.now.table.d table.now.coordinates table.now.nodes probe.now }
{
    if table.header.used == 0 {
        return 0;
    }
    let walk = Walk {
        nodes: table.nodes,
        coordinates: table.coordinates,
        probe: &padded(probe),
        ask: Asked::new(table.header, order, reach, place, size),
    };
    page(table.references, &walk, room)
}

// [4.6] [4.7] Looks for a page, and for one claim more: a walk skips branches without knowing whether they hold a claim, so only a claim
// that it found tells that some follow the page. Where there is one, it stands behind the page in the scratch room.
pub fn find_page(
    table: &LentTable<'_>,
    order: Order,
    probe: &[i32],
    reach: u64,
    place: Place,
    size: usize,
    scratch: &mut [u64],
) -> Paged
    requires answerable { Answerable table.now probe.now }
    requires pageable { Pageable table.now.table place (size + 1) scratch.old }
    ensures { PageFound (table_query table.now.table order probe.now reach) (claims_in table.now) place size scratch.new result }
{
    let count = fill(table, order, probe, reach, place, size + 1, scratch);
    counted(size, count)
}

// [4.6] [4.7] [4.8] A page: its claims at the front of the room, how many they are, and whether none follows them.
pub fn page_of(
    table: &LentTable<'_>,
    order: Order,
    probe: &[i32],
    reach: u64,
    place: Place,
    size: usize,
    room: &mut [u64],
) -> Paged
    requires answerable { Answerable table.now probe.now }
    requires size_le_most_page { size ≤ most_page }
    requires pageable { Pageable table.now.table place size room.old }
    ensures { PageIs (table_query table.now.table order probe.now reach) (claims_in table.now) place size room.old room.new result }
{
    let mut scratch = [0u64; SCRATCH_ITEMS];
    let paged = find_page(table, order, probe, reach, place, size, &mut scratch);
    join(room, 0, &scratch, 3 * paged.count);
    paged
}

// The first claim within reach, in the order.
fn first(table: &LentTable<'_>, order: Order, probe: &[i32], reach: u64) -> Option<Item>
    requires { Answerable table.now probe.now }
    ensures found { result ≡ first_of (listed (table_query table.now.table order probe.now reach) (claims_in table.now) table.now.table.count) }
    ensures bounded { RootBounded table.now.table.used table.now.table.measure table.now.table.d table.now.coordinates table.now.nodes probe.now }
{
    let mut room = [0u64; 3];
    let start = Place::Start;
    let count = fill(table, order, probe, reach, start, 1, &mut room);
    if count == 0 {
        return None;
    }
    Some(Item {
        number: room[0],
        reference: room[1],
        distance: room[2],
    })
}

// [4.1] The nearest claim within reach.
pub fn nearest(table: &LentTable<'_>, probe: &[i32], reach: u64) -> Option<Item>
    requires { Answerable table.now probe.now }
    ensures { result ≡ nearest_of (table_query table.now.table Near probe.now reach) (claims_in table.now) }
{
    let near = Order::Near;
    first(table, near, probe, reach)
}

// [4.2] [1.9] The farthest claim. None is beyond the measure's greatest distance.
pub fn farthest(table: &LentTable<'_>, probe: &[i32]) -> Option<Item>
    requires { Answerable table.now probe.now }
    ensures found { result ≡ farthest_of (table_query table.now.table Near probe.now 0) (claims_in table.now) }
    ensures nothing { NothingJust table.now.table.count (gives result) }
{
    let far = Order::Far;
    let greatest = Measure::numbered(table.header.measure).greatest(table.header.d as u64);
    first(table, far, probe, greatest)
}

// How far claim k is from the probe. The measure is a number, as `distance` takes it.
#[tactic(auto, unfolding(crate::specs::Walking::dist_of))]
fn from_probe(measure: u8, d: usize, coordinates: &[i32], probe: &[i32], k: u64) -> u64
    requires { InSight d k coordinates.now probe.now }
    ensures { result ≡ dist_of measure d coordinates.now probe.now k }
{
    measure::distance(measure, d, coordinates, k as usize * d, probe, 0)
}

// [8.8] Whether a place's mark is a claim of its snapshot, at that claim's distance, within reach.
pub fn mark_holds(table: &LentTable<'_>, probe: &[i32], reach: u64, place: Place) -> bool
    requires { Markable table.now.table table.now.coordinates probe.now place }
    ensures { (order : Order) (references : List ℕ) → result ≡ mark_holds (table_query table.now.table order probe.now reach) (claims_from table.now.table.d table.now.table.count references table.now.coordinates) place }
{
    let Place::After(snapshot, mark) = place else {
        return true;
    };
    let k = mark.number;
    let x = mark.distance;
    if snapshot <= k {
        return false;
    }
    let t = table.header;
    if from_probe(t.measure, t.d, table.coordinates, probe, k) != x {
        return false;
    }
    x <= reach
}
