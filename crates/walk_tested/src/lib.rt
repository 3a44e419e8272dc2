// [9.8] The page of a table that was tested: what is left to refuse is the place and the room, 7, 8 and 12. The single call and many pages
// both ask here.
#![tactic(auto)]

ghost use Rattle.std.specs.Prelude.{◌≡◌, length};
ghost use Rattle.paper.specs.Outcomes.{number, told, Promise};
ghost use Rattle.paper.specs.Calls.{page_call, page_shown, put_page};
ghost use Rattle.walk_tested.specs.Askable.{Askable};

use checks::snapshot_holds;
use paper::lent::LentTable;
use paper::orders::{Order, Paged, Place};
use paper::refusals::Refusal;

// [8.7] [8.8] [8.12] Whether a page of a table that was tested is given. Nothing is written.
fn test_place(
    table: &LentTable<'_>,
    order: Order,
    probe: &[i32],
    reach: u64,
    place: Place,
    size: usize,
    room: usize,
) -> Result<(), Refusal>
    requires { Askable table.now (length probe.now) size }
    ensures { number (told result) ≡ number (page_call table.now order probe.now reach place size room) }
{
    if !snapshot_holds(place, table.header.count) {
        return Err(Refusal::Snapshot);
    }
    if !walk::questions::mark_holds(table, probe, reach, place) {
        return Err(Refusal::Mark);
    }
    if room / 3 < size {
        return Err(Refusal::RoomTooShort);
    }
    Ok(())
}

// [9.8] [9.17] Refusals 7, 8, 12: the page of a table that was tested, where 1, 2, 5 and 6 refuse nothing. Many pages ask for each of
// theirs here.
pub fn page_here(
    table: &LentTable<'_>,
    order: Order,
    probe: &[i32],
    reach: u64,
    place: Place,
    size: usize,
    room: &mut [u64],
) -> Result<Paged, Refusal>
    requires { Askable table.now (length probe.now) size }
    ensures { Promise page_shown put_page (page_call table.now order probe.now reach place size (length room.old)) room.old (told result) room.new }
{
    test_place(table, order, probe, reach, place, size, room.len())?;
    Ok(walk::questions::page_of(table, order, probe, reach, place, size, room))
}
