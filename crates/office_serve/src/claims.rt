// [10.3] A claim line: entered, with nothing said, or refused.
ghost use Rattle.std.specs.Prelude.{◌≡◌, length};
ghost use Rattle.paper.specs.Tree.{lent_mut};
ghost use Rattle.paper.specs.Program.{table_for, claim_entering, claim_turn};
ghost use Rattle.office_serve.specs.Serving.{books_of, header_for, ClaimServing, Served};

use super::refusing::refuse;
use checks::is_ours;
use paper::lines::ClaimLine;
use paper::refusals::Refusal;
use paper::tables::Table;
use tree_repeats::one::is_known;

// [10.2] The table that a claim line is for: the first one sets number, measure and d.
#[tactic(auto, unfolding(crate::specs::Serving::header_for))]
fn header_for(t: Table, c: ClaimLine) -> Table
    ensures { result ≡ header_for t c }
{
    if t.count == 0 {
        Table {
            number: c.table,
            measure: c.measure,
            d: c.d as usize,
            count: 0,
            used: 0,
            ..t
        }
    } else {
        t
    }
}

// Gives where what was said ends.
pub fn take_claim(
    t: &mut Table,
    references: &mut [u32],
    coordinates: &mut [i32],
    nodes: &mut [u64],
    c: ClaimLine,
    out: &mut [u8],
    at: usize,
) -> usize
    requires { ClaimServing (lent_mut t.old references coordinates nodes) c (length out.old) at }
    ensures { Served (claim_turn (books_of (lent_mut t.old references.entry coordinates.entry nodes.entry)) (claim_entering (table_for (books_of (lent_mut t.old references.entry coordinates.entry nodes.entry)) c) c))
        (lent_mut t.new references.exit coordinates.exit nodes.exit) out.old at out.new result }
{
    let header = header_for(*t, c);
    if !is_ours(header, c.table, c.measure, c.d as usize) {
        return refuse(out, at, Refusal::OtherTable);
    }
    if is_known(references, header.count, c.reference) {
        return refuse(out, at, Refusal::KnownReference);
    }
    if header.capacity <= header.count {
        return refuse(out, at, Refusal::TableFull);
    }
    *t = tree::runs::add(
        header,
        references,
        coordinates,
        nodes,
        c.reference,
        &c.coordinates,
        0,
    );
    at
}
