// [5.5] The ask line: a list's order tells its kind, and its kind its order.
ghost use Rattle.std.specs.Prelude.{◌≡◌, true, ◌≤◌, length};
ghost use Rattle.paper.specs.Frames.{is_line, line_of, written};
ghost use Rattle.paper.specs.Lines.{Writes, bare_line, ask_frame, ask_ranges, ask_fits, read_as_ask};
ghost use Rattle.paper.specs.Orders.{query_in};
ghost use Rattle.paper.specs.Outcomes.{told};
ghost use Rattle.paper.specs.Limits.{longest_ask, most_coordinates};

use checks::{ask_kind, ask_order, size_holds};
use paper::limits::LONGEST_ASK;
use paper::lines::{Ask, Scope};
use paper::queries::Query;
use paper::refusals::Refusal;

// [4.3] [5.10] Whether scope and page size are in range, and the snapshot 0 at the start.
fn ask_ranges(p: Scope, size: u64) -> bool
    ensures { result ≡ ask_ranges p size }
{
    if line_fields::scope_ok(p) {
        if !size_holds(size as usize) {
            return false;
        }
        if p.from == 1 {
            return true;
        }
        return p.snapshot == 0;
    }
    false
}

// [8.10] Whether an ask can have these fields.
fn ask_fits(q: Query, p: Scope, size: u8) -> bool
    ensures { result ≡ ask_fits (query_in q) p size }
{
    if line_fields::query_fits(q) {
        return ask_ranges(p, size as u64);
    }
    false
}

// Writes the ask's line into a room that is large enough, and gives its length.
fn fill_ask(q: Query, p: Scope, size: u8, out: &mut [u8]) -> usize
    requires { (q.d ≤ most_coordinates) × (longest_ask ≤ length out.old) }
    ensures { (result ≡ length (line_of (ask_frame (query_in q) p size))) × (out.new ≡ written (ask_frame (query_in q) p size) out.old) }
{
    let d = q.d;
    let order = q.order;
    line_fields::put_front(out, ask_kind(order), q, p);
    line_digits::put(out, 28 + 4 * d, 1, size as u64);
    let n = 58 + 8 * d;
    out[n] = 10;
    n + 1
}

// [5.5] [9.14] Writes an ask: the front of 28 + 4d bytes (line_fields::put_front), then the page size (1). Refusals 10, 12.
pub fn write_ask(q: Query, p: Scope, size: u8, out: &mut [u8]) -> Result<usize, Refusal>
    ensures { Writes (bare_line (ask_fits (query_in q) p size) longest_ask (ask_frame (query_in q) p size) (length out.old)) out.old (told result) out.new }
{
    if !ask_fits(q, p, size) {
        return Err(Refusal::Fields);
    }
    if out.len() < LONGEST_ASK {
        return Err(Refusal::RoomTooShort);
    }
    Ok(fill_ask(q, p, size, out))
}

// [5.5] [8.10] The ask in a sound line, in the order that its kind tells: query, scope behind its reach, and page size in byte 28 + 4d. Refusal 10.
// The query's fields are read here, and last: a function that gives a query back, or one that is called while it is held, costs a copy of it.
pub fn ask_in(line: &[u8]) -> Result<Ask, Refusal>
    requires { is_line line.now ≡ true }
    ensures { told result ≡ read_as_ask line.now }
{
    let order = ask_order(line_fields::kind(line));
    if !line_fields::layout_ok(line, ask_kind(order), 29) {
        return Err(Refusal::Fields);
    }
    let d = line_fields::d(line);
    let at = 7 + 4 * d;
    let scope = line_fields::scope_at(line, at);
    let size = line_digits::number(line, at + 21, 1);
    if !ask_ranges(scope, size) {
        return Err(Refusal::Fields);
    }
    let probe = line_fields::coords_at(line, 7, d);
    let query = Query {
        order,
        table: line_fields::table(line),
        measure: line_fields::measure(line),
        d,
        probe,
        reach: line_digits::number(line, at, 8),
    };
    let ask = Ask {
        query,
        scope,
        size: size as u8,
    };
    Ok(ask)
}

// [5.5] [9.15] Reads an ask's line. Refusals 9, 10.
pub fn read_ask(line: &[u8]) -> Result<Ask, Refusal>
    ensures { told result ≡ read_as_ask line.now }
{
    if !line_digits::is_sound(line) {
        return Err(Refusal::NoLine);
    }
    ask_in(line)
}
