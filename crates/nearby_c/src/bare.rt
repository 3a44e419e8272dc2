// The bare writers and readers of asks, answers and claims. [9.19] An order is a flag, on for far.
ghost use Rattle.std.specs.Prelude.{◌≡◌, ◌&&◌, leb, eqb, length, false, MatchOption};
ghost use Rattle.paper.specs.Orders.{query_in};
ghost use Rattle.paper.specs.Lines.{bare_line, ask_fits, ask_frame, read_as_ask, answer_fits, answer_frame, read_as_answer, claim_fits, claim_frame, read_as_claim};
ghost use Rattle.c_lists.specs.Values.{query_from, scope_from, ask_out, answer_out, claim_out};
ghost use Rattle.c_values.specs.Values.{WritesOut};
ghost use Rattle.paper.specs.Limits.{longest_answer, longest_ask, longest_claim, most_coordinates};

use c_lists::{AnswerShown, AskShown, ClaimShown, Extent, answer_out, ask_out, order_in};
use c_values::Written;
use paper::limits::MOST_COORDINATES;
use paper::lines::Scope;
use paper::queries::Query;
use paper::refusals::Refusal;

// The query of C's parts, if its probe has so many coordinates, and a slot for each.
#[tactic(auto, using(orders::proofs::Rooms::query_placed))]
fn query_of_parts(
    order: u8,
    table: u32,
    measure: u8,
    d: u8,
    probe: &[i32],
    reach: u64,
) -> Option<Query>
    ensures { MatchOption result ((eqb (length probe.now) d && leb d most_coordinates) ≡ false)
        (λ q. query_in q ≡ query_from order table measure d probe.now reach) }
{
    let d = d as usize;
    if probe.len() != d || d > MOST_COORDINATES {
        return None;
    }
    Some(line_fields::query_of(order_in(order), table, measure, d, probe, reach))
}

// [9.14] Refusals 10, 12.
#[unsafe(no_mangle)]
#[tactic(auto, using(crate::proofs::Exports::ask_misplaced), unfolding(paper::specs::Lines::bare_line))]
pub extern "C" fn nearby_write_ask_line(
    order: u8,
    table: u32,
    measure: u8,
    d: u8,
    probe: &[i32],
    p: Extent,
    size: u8,
    out: &mut [u8],
) -> Written
    ensures { WritesOut (bare_line (ask_fits (query_from order table measure d probe.now p.reach) (scope_from p) size)
        longest_ask (ask_frame (query_from order table measure d probe.now p.reach) (scope_from p) size) (length out.old)) out.old result out.new }
{
    let Some(query) = query_of_parts(order, table, measure, d, probe, p.reach) else {
        return Written::from(Err(Refusal::Fields));
    };
    Written::from(nearby::write_ask_line(query, Scope::from(p), size, out))
}

// [9.14] Refusals 10, 12.
#[unsafe(no_mangle)]
#[tactic(auto, using(crate::proofs::Exports::answer_misplaced), unfolding(paper::specs::Lines::bare_line))]
pub extern "C" fn nearby_write_answer_line(
    order: u8,
    table: u32,
    measure: u8,
    d: u8,
    probe: &[i32],
    p: Extent,
    last: u8,
    count: u8,
    items: &[u64],
    out: &mut [u8],
) -> Written
    ensures { WritesOut (bare_line (answer_fits (query_from order table measure d probe.now p.reach) (scope_from p) last count items.now)
        longest_answer (answer_frame (query_from order table measure d probe.now p.reach) (scope_from p) last count items.now) (length out.old)) out.old result out.new }
{
    let Some(query) = query_of_parts(order, table, measure, d, probe, p.reach) else {
        return Written::from(Err(Refusal::Fields));
    };
    Written::from(nearby::write_answer_line(query, Scope::from(p), last, count, items, out))
}

// [9.14] Refusals 10, 12.
#[unsafe(no_mangle)]
pub extern "C" fn nearby_write_claim_line(
    table: u32,
    measure: u8,
    d: u8,
    reference: u32,
    coordinates: &[i32],
    out: &mut [u8],
) -> Written
    ensures { WritesOut (bare_line (claim_fits measure d coordinates.now) longest_claim (claim_frame table measure d reference coordinates.now) (length out.old)) out.old result out.new }
{
    Written::from(nearby::write_claim_line(table, measure, d, reference, coordinates, out))
}

// [9.15] Refusals 9, 10.
#[unsafe(no_mangle)]
#[tactic(auto, using(crate::proofs::Exports::ask_narrow))]
pub extern "C" fn nearby_read_ask_line(line: &[u8]) -> AskShown
    ensures { result ≡ ask_out (read_as_ask line.now) }
{
    ask_out(nearby::read_ask_line(line))
}

// [9.15] Refusals 9, 10.
#[unsafe(no_mangle)]
#[tactic(auto, using(crate::proofs::Exports::answer_narrow))]
pub extern "C" fn nearby_read_answer_line(line: &[u8]) -> AnswerShown
    ensures { result ≡ answer_out (read_as_answer line.now) }
{
    answer_out(nearby::read_answer_line(line))
}

// [9.15] Refusals 9, 10.
#[unsafe(no_mangle)]
pub extern "C" fn nearby_read_claim_line(line: &[u8]) -> ClaimShown
    ensures { result ≡ claim_out (read_as_claim line.now) }
{
    ClaimShown::from(nearby::read_claim_line(line))
}
