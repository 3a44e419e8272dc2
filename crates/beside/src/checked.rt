// What is asked: a table that was tested, with the scan beside it.
ghost use Rattle.std.specs.Prelude.{◌≡◌, ℕ, ◌≤◌, length};
ghost use Rattle.paper.specs.Orders.{snapshot_of};
ghost use Rattle.paper.specs.Calls.{table_refusal};
ghost use Rattle.beside.specs.Questions.{Drawn};

use super::scan::{Asking, Scan};
use paper::lent::LentTable;
use paper::limits::ITEM_ROOM;
use paper::orders::{Item, Mark, Paged, Place};
use walk::questions::{farthest, mark_holds, nearest, page_of};

// A table that can be asked with the scan's probe, and whose claims the scan knows.
#[derive(Drop)]
pub struct Checked<'a> {
    pub table: LentTable<'a>,
    pub scan: Scan<'a>,
    ghost tested: { 0 ≡ table_refusal table },
    ghost aimed: { length scan.probe.now ≡ table.table.d },
    ghost known: { table.table.count ≤ length scan.points.now },
}

// Where the question's page starts.
fn place(q: &Asking) -> Place
    ensures { (count : ℕ) → q.now.snapshot ≤ count → snapshot_of result count ≤ count }
{
    match q.after {
        None => Place::Start,
        Some(item) => Place::After(
            q.snapshot as u64,
            Mark {
                distance: item.distance,
                number: item.number,
            },
        ),
    }
}

impl<'a> Checked<'a> {
    pub fn new(table: LentTable<'a>, scan: Scan<'a>) -> Option<Checked<'a>> {
        if nearby::test_table(&table).is_err() {
            return None;
        }
        let t = table.header;
        if scan.probe.len() != t.d || scan.points.len() < t.count {
            return None;
        }
        Some(Checked { table, scan })
    }

    pub fn nearest(&self, reach: u64) -> Option<Item> {
        nearest(&self.table, self.scan.probe, reach)
    }

    pub fn farthest(&self) -> Option<Item> {
        farthest(&self.table, self.scan.probe)
    }

    // None where the mark is refused.
    pub fn page(&self, q: &Asking, room: &mut [u64; ITEM_ROOM]) -> Option<Paged>
        requires { Drawn self.now.table.table q.now }
    {
        let start = place(q);
        let probe = self.scan.probe;
        if !mark_holds(&self.table, probe, q.reach, start) {
            return None;
        }
        Some(page_of(&self.table, q.order, probe, q.reach, start, q.size, room))
    }
}
