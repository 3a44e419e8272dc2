// [5.6] The answer line: a list's order tells its kind, and its kind its order.
ghost use Rattle.std.specs.Prelude.{◌≡◌, true, ◌++◌, ◌+◌, ◌*◌, ◌≤◌, length};
ghost use Rattle.paper.specs.Frames.{be, is_line, line_of, written, frame_of};
ghost use Rattle.paper.specs.Fields.{item_bytes};
ghost use Rattle.paper.specs.Orders.{query_in};
ghost use Rattle.paper.specs.Outcomes.{told};
ghost use Rattle.paper.specs.Lines.{Writes, bare_line, answer_frame, answer_ranges, answer_fits, count_in, read_as_answer};
ghost use Rattle.line_digits.specs.FrameBytes.{overlaid};
ghost use Rattle.line_fields.specs.Layout.{laid_out};
ghost use Rattle.paper.specs.Limits.{longest_answer, most_page, most_coordinates};

use checks::{answer_kind, answer_order};
use paper::limits::{ITEM_ROOM, LONGEST_ANSWER, MOST_PAGE};
use paper::lines::{Answer, Scope};
use paper::queries::Query;
use paper::refusals::Refusal;

// [5.8] [5.9] Whether scope, last and item count are in range.
fn answer_ranges(p: Scope, last: u64, count: u64) -> bool
    ensures { result ≡ answer_ranges p last count }
{
    if line_fields::scope_ok(p) {
        if 1 < last {
            return false;
        }
        return count as usize <= MOST_PAGE;
    }
    false
}

// [8.10] Whether an answer can have these fields.
fn answer_fits(q: Query, p: Scope, last: u8, count: u8, items: &[u64]) -> bool
    ensures { result ≡ answer_fits (query_in q) p last count items.now }
{
    if line_fields::query_fits(q) {
        if answer_ranges(p, last as u64, count as u64) {
            return line_fields::items_fit(items, count);
        }
    }
    false
}

// Writes what an answer has behind its mark number.
fn put_tail(out: &mut [u8], at: usize, last: u8, count: u8, items: &[u64])
    requires { (length items.now ≡ 3 * count) × ((count ≤ most_page) × (2 * (at + 2 + 14 * count) ≤ length out.old)) }
    ensures { out.new ≡ overlaid out.old at (be 1 last ++ (be 1 count ++ item_bytes items.now)) }
{
    line_digits::put(out, at, 1, last as u64);
    line_digits::put(out, at + 1, 1, count as u64);
    line_fields::put_items(out, at + 2, items, count as usize);
}

// Writes the answer's line into a room that is large enough, and gives its length.
fn fill_answer(q: Query, p: Scope, last: u8, count: u8, items: &[u64], out: &mut [u8]) -> usize
    requires { (q.d ≤ most_coordinates) × ((length items.now ≡ 3 * count) × ((count ≤ most_page) × (longest_answer ≤ length out.old))) }
    ensures { (result ≡ length (line_of (answer_frame (query_in q) p last count items.now))) × (out.new ≡ written (answer_frame (query_in q) p last count items.now) out.old) }
{
    let d = q.d;
    let order = q.order;
    line_fields::put_front(out, answer_kind(order), q, p);
    put_tail(out, 28 + 4 * d, last, count, items);
    let n = 60 + 8 * d + 28 * count as usize;
    out[n] = 10;
    n + 1
}

// [5.6] [9.14] Writes an answer: the front of 28 + 4d bytes (line_fields::put_front), then last (1), item count (1), and 14 for each item. Refusals
// 10, 12.
pub fn write_answer(
    q: Query,
    p: Scope,
    last: u8,
    count: u8,
    items: &[u64],
    out: &mut [u8],
) -> Result<usize, Refusal>
    ensures { Writes (bare_line (answer_fits (query_in q) p last count items.now) longest_answer (answer_frame (query_in q) p last count items.now) (length out.old)) out.old (told result) out.new }
{
    if !answer_fits(q, p, last, count, items) {
        return Err(Refusal::Fields);
    }
    if out.len() < LONGEST_ANSWER {
        return Err(Refusal::RoomTooShort);
    }
    Ok(fill_answer(q, p, last, count, items, out))
}

// [8.10] Whether a line begins with a head of this kind, and has the length that its d and its item count tell: 30 + 4d + 14k bytes.
fn layout_ok(line: &[u8], kind: u8) -> bool
    requires { is_line line.now ≡ true }
    ensures { result ≡ laid_out kind (30 + 14 * count_in (frame_of line.now)) (frame_of line.now) }
{
    let n = line_digits::size(line);
    if n < 30 {
        return false;
    }
    let at = 28 + 4 * line_fields::d(line);
    if n < at + 2 {
        return false;
    }
    let count = line_digits::number(line, at + 1, 1) as usize;
    line_fields::layout_ok(line, kind, 30 + 14 * count)
}

// [5.6] [8.10] The answer in a sound line, in the order that its kind tells: query, scope behind its reach, last in byte 28 + 4d, then the item
// count and the items. Refusal 10. As in an ask, query and items are read last.
fn answer_in(line: &[u8]) -> Result<Answer, Refusal>
    requires { is_line line.now ≡ true }
    ensures { told result ≡ read_as_answer line.now }
{
    let order = answer_order(line_fields::kind(line));
    if !layout_ok(line, answer_kind(order)) {
        return Err(Refusal::Fields);
    }
    let d = line_fields::d(line);
    let at = 28 + 4 * d;
    let scope = line_fields::scope_at(line, at - 21);
    let last = line_digits::number(line, at, 1);
    let count = line_digits::number(line, at + 1, 1);
    if !answer_ranges(scope, last, count) {
        return Err(Refusal::Fields);
    }
    if !line_fields::numbers_ok(line, at + 2, count as usize) {
        return Err(Refusal::Fields);
    }
    let probe = line_fields::coords_at(line, 7, d);
    let query = Query {
        order,
        table: line_fields::table(line),
        measure: line_fields::measure(line),
        d,
        probe,
        reach: line_digits::number(line, at - 21, 8),
    };
    let items = line_fields::items_at(line, at + 2, count as usize);
    let answer = Answer {
        last: last as u8,
        count: count as u8,
        scope,
        query,
        items,
    };
    Ok(answer)
}

// [5.6] [9.15] Reads an answer's line. Refusals 9, 10.
pub fn read_answer(line: &[u8]) -> Result<Answer, Refusal>
    ensures { told result ≡ read_as_answer line.now }
{
    if !line_digits::is_sound(line) {
        return Err(Refusal::NoLine);
    }
    answer_in(line)
}
