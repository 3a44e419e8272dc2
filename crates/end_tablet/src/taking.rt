// Taking an answer: whether it is to the list's present ask, whether its page holds, and joining it to the list.
ghost use Rattle.std.specs.Prelude.{◌≡◌, true, ◌+◌, ◌-◌, ◌*◌, ◌≤◌, ◌<◌, length};
ghost use Rattle.std.proofs.Math.Seq.{paste};
ghost use Rattle.paper.specs.Ends.{same_probe, same_query, same_place, to_present, page_holds, taken};
ghost use Rattle.paper.specs.Lists.{Takes, held, listing, room_for, sound_held, taking_held};
ghost use Rattle.paper.specs.Codec.{place_in, answer_meant, lines};
ghost use Rattle.end_tablet.specs.Holding.{AskReady};
ghost use Rattle.paper.specs.Orders.{query_in, same_order};
ghost use Rattle.paper.specs.Outcomes.{told};
ghost use Rattle.paper.specs.Limits.{item_room, most_page, most_coordinates};

use crate::asking::present;
use crate::items::items_hold;
use crate::probes::same_probe;
use checks::{place_of, same_order};
use paper::lines::{Answer, Scope};
use paper::lists::List;
use paper::queries::Query;
use paper::refusals::Refusal;
use rows::join;

fn same_place(p: Scope, q: Scope) -> bool
    ensures { result ≡ same_place (place_in p) (place_in q) }
{
    place_of(p) == place_of(q)
}

// A test a line: the proof did not close of one expression, nor of two tuples compared.
fn same_query(p: Query, q: Query) -> bool
    requires { p.d ≤ most_coordinates }
    ensures { result ≡ same_query (query_in p) (query_in q) }
{
    if p.table != q.table {
        return false;
    }
    if p.measure != q.measure {
        return false;
    }
    if p.d != q.d {
        return false;
    }
    if !same_probe(p.d, &p.probe, &q.probe) {
        return false;
    }
    p.reach == q.reach
}

// [7.5] [8.13] Whether an answer is to the list's present ask; page sizes are not compared.
fn to_present(l: List, room: &[u64], y: &Answer) -> bool
    requires { AskReady l room.now }
    ensures { result ≡ to_present (listing (held l room.now)) (answer_meant y.now) }
{
    same_query(l.query, y.query) && same_place(present(l, room), y.scope)
}

// [7.6] [8.14] Whether an answer's page rises, after the mark, within reach and below the snapshot, and is none only as the last.
fn page_holds(y: &Answer) -> bool
    requires { y.now.count ≤ most_page }
    ensures { result ≡ page_holds (answer_meant y.now) }
{
    let n = y.count as usize;
    let place = place_of(y.scope);
    let snapshot = y.scope.snapshot as u64;
    items_hold(y.query.order, place, y.query.reach, snapshot, &y.items, n)
        && (1 <= n || y.last == 1)
}

// [7.7] Joins an answer's page to the items that stand in the room.
fn join_page(room: &mut [u64], count: usize, y: &Answer)
    requires { (count * 3 + y.now.count * 3 ≤ length room.old) × (y.now.count ≤ most_page) }
    ensures { (room.new ≡ paste room.old (count * 3) y.now.items (y.now.count * 3)) × (item_room - 1 < length y.now.items) }
{
    join(room, count * 3, &y.items, y.count as usize * 3);
}

// [9.13] [7.7] [7.8] Takes an answer that was read into a sound list.
pub fn take_answer(l: List, room: &mut [u64], y: &Answer) -> Result<List, Refusal>
    requires { (sound_held (held l room.old) ≡ true) × (y.now.count ≤ most_page) }
    ensures { Takes l (taken (room_for (held l room.old)) (listing (held l room.old)) (answer_meant y.now)) room.old (told result) room.new }
{
    if l.complete {
        return Err(Refusal::Complete);
    }
    if !to_present(l, room, y) {
        return Err(Refusal::NotPresentAsk);
    }
    if !page_holds(y) {
        return Err(Refusal::Page);
    }
    let n = y.count as usize;
    if room.len() / 3 - l.count < n {
        return Err(Refusal::ListFull);
    }
    join_page(room, l.count, y);
    Ok(List {
        started: true,
        snapshot: y.scope.snapshot as u64,
        count: l.count + n,
        complete: y.last == 1,
        ..l
    })
}

// [9.13] [8.10] Takes an answer line, of the list's own kind, into a sound list.
pub fn take_line(l: List, room: &mut [u64], line: &[u8]) -> Result<List, Refusal>
    requires { sound_held (held l room.old) ≡ true }
    ensures { Takes l (taking_held lines (held l room.old) line.now) room.old (told result) room.new }
{
    let y = lines::read_answer(line)?;
    if !same_order(l.query.order, y.query.order) {
        return Err(Refusal::Fields);
    }
    take_answer(l, room, &y)
}
