// The page that an ask wants, and its line.
ghost use Rattle.std.specs.Prelude.{◌≡◌, ◌≤◌, length};
ghost use Rattle.paper.specs.Orders.{snapshot_of};
ghost use Rattle.paper.specs.Ends.{table_of};
ghost use Rattle.paper.specs.Codec.{place_in, scope_of};
ghost use Rattle.paper.specs.Outcomes.{told};
ghost use Rattle.paper.specs.Lines.{Writes};
ghost use Rattle.end_office.specs.Desk.{Paging, ask_in, page_line};

use checks::{flag, place_of};
use paper::lent::LentTable;
use paper::limits::SCRATCH_ITEMS;
use paper::lines::Scope;
use paper::queries::Query;
use paper::refusals::Refusal;

// [6.4] The fields that an answer has of its ask, with the snapshot of the page.
fn answer_scope(p: Scope, count: u16) -> Scope
    requires { p.from ≤ 1 }
    ensures { result ≡ scope_of (place_in p) (snapshot_of (place_in p) count) }
{
    if p.from == 0 {
        return Scope {
            from: 0,
            snapshot: count,
            distance: 0,
            number: 0,
        };
    }
    p
}

// [6.3] Finds the page and writes its line.
pub fn write_page(
    table: &LentTable<'_>,
    q: Query,
    p: Scope,
    size: u8,
    out: &mut [u8],
) -> Result<usize, Refusal>
    requires { Paging table.now q p size (length out.old) }
    ensures { Writes (page_line (table_of table.now) (ask_in q p size)) out.old (told result) out.new }
{
    let mut scratch = [0u64; SCRATCH_ITEMS];
    let probe = q.probe;
    let place = place_of(p);
    let paged = walk::questions::find_page(
        table,
        q.order,
        &probe[..q.d],
        q.reach,
        place,
        size as usize,
        &mut scratch,
    );
    let scope = answer_scope(p, table.header.count as u16);
    let count = paged.count;
    let n = 3 * count;
    lines::write_answer(q, scope, flag(paged.last), count as u8, &scratch[..n], out)
}
