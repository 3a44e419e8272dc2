// The bare writers and readers of asks, answers and claims. A query's order tells the kind of its asks and answers, and the kind of a line its
// order. Of a query's probe the first d slots are written.
ghost use Rattle.std.specs.Prelude.{◌≡◌, length};
ghost use Rattle.paper.specs.Orders.{query_in};
ghost use Rattle.paper.specs.Outcomes.{told};
ghost use Rattle.paper.specs.Lines.{Writes, bare_line, ask_fits, ask_frame, read_as_ask, answer_fits, answer_frame, read_as_answer, claim_fits, claim_frame, read_as_claim};
ghost use Rattle.paper.specs.Limits.{longest_answer, longest_ask, longest_claim};

use paper::lines::{Answer, Ask, ClaimLine, Scope};
use paper::queries::Query;
use paper::refusals::Refusal;

// [9.14] [5.5] Refusals 10, 12.
pub fn write_ask_line(q: Query, p: Scope, size: u8, out: &mut [u8]) -> Result<usize, Refusal>
    ensures { Writes (bare_line (ask_fits (query_in q) p size) longest_ask (ask_frame (query_in q) p size) (length out.old)) out.old (told result) out.new }
{
    lines::write_ask(q, p, size, out)
}

// [9.14] [5.6] Refusals 10, 12.
pub fn write_answer_line(
    q: Query,
    p: Scope,
    last: u8,
    count: u8,
    items: &[u64],
    out: &mut [u8],
) -> Result<usize, Refusal>
    ensures { Writes (bare_line (answer_fits (query_in q) p last count items.now) longest_answer (answer_frame (query_in q) p last count items.now) (length out.old)) out.old (told result) out.new }
{
    lines::write_answer(q, p, last, count, items, out)
}

// [9.14] [5.7] Refusals 10, 12.
pub fn write_claim_line(
    table: u32,
    measure: u8,
    d: u8,
    reference: u32,
    coordinates: &[i32],
    out: &mut [u8],
) -> Result<usize, Refusal>
    ensures { Writes (bare_line (claim_fits measure d coordinates.now) longest_claim (claim_frame table measure d reference coordinates.now) (length out.old)) out.old (told result) out.new }
{
    lines::write_claim(table, measure, d, reference, coordinates, out)
}

// [9.15] [5.5] Refusals 9, 10.
pub fn read_ask_line(line: &[u8]) -> Result<Ask, Refusal>
    ensures { told result ≡ read_as_ask line.now }
{
    lines::read_ask(line)
}

// [9.15] [5.6] Refusals 9, 10.
pub fn read_answer_line(line: &[u8]) -> Result<Answer, Refusal>
    ensures { told result ≡ read_as_answer line.now }
{
    lines::read_answer(line)
}

// [9.15] [5.7] Refusals 9, 10.
pub fn read_claim_line(line: &[u8]) -> Result<ClaimLine, Refusal>
    ensures { told result ≡ read_as_claim line.now }
{
    lines::read_claim(line)
}
