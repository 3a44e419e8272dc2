// The head, coordinates, the scope, and what an ask and an answer begin with.
ghost use Rattle.std.specs.Prelude.{◌≡◌, true, ◌+◌, ◌*◌, ◌≤◌, ◌<◌, length, drop};
ghost use Rattle.paper.specs.Frames.{num, frame_of, is_line};
ghost use Rattle.paper.specs.Fields.{head, coord_bytes, coords_in, in_slots, scope_bytes, scope_in, scope_ok};
ghost use Rattle.paper.specs.Fields.{front as Fields·front};
ghost use Rattle.paper.specs.Orders.{query_in};
ghost use Rattle.paper.specs.Lines.{head_ok};
ghost use Rattle.line_digits.specs.FrameBytes.{overlaid, HasBytes, Field};
ghost use Rattle.line_fields.specs.Layout.{laid_out};
ghost use Rattle.paper.specs.Limits.{most_coordinates};

use checks::in_range;
use paper::limits::MOST_COORDINATES;
use paper::lines::Scope;
use paper::queries::Query;

// [5.4] The kind of a line: byte 0.
#[tactic(auto, using(line_digits::proofs::LinesAndFrames::sound_byte))]
pub fn kind(line: &[u8]) -> u64
    requires { is_line line.now ≡ true }
    ensures { result ≡ num 1 (frame_of line.now) }
{
    line_digits::number(line, 0, 1)
}

// [5.4] The table number of a line: bytes 1 to 4.
pub fn table(line: &[u8]) -> u32
    requires { HasBytes line.now 5 }
    ensures { Field line.now 1 4 result }
{
    line_digits::number(line, 1, 4) as u32
}

// [5.4] The measure of a line: byte 5.
pub fn measure(line: &[u8]) -> u8
    requires { HasBytes line.now 6 }
    ensures { Field line.now 5 1 result }
{
    line_digits::number(line, 5, 1) as u8
}

// [5.4] The d of a line: byte 6.
pub fn d(line: &[u8]) -> usize
    requires { HasBytes line.now 7 }
    ensures { Field line.now 6 1 result }
{
    line_digits::number(line, 6, 1) as usize
}

// [5.4] [8.10] Whether a line begins with a head of this kind, with measure and d in range.
#[tactic(auto, unfolding(paper::specs::Lines::head_ok))]
fn head_ok(line: &[u8], wanted: u8) -> bool
    requires { HasBytes line.now 7 }
    ensures { result ≡ head_ok wanted (frame_of line.now) }
{
    kind(line) == wanted as u64 && in_range(measure(line), d(line))
}

// [8.10] Whether a line begins with a head of this kind, and has the length that its d tells: fixed + 4d bytes.
#[tactic(auto, using(crate::proofs::PartLaws::laid_is), unfolding(crate::specs::Layout::laid_out))]
pub fn layout_ok(line: &[u8], kind: u8, fixed: usize) -> bool
    requires { (is_line line.now ≡ true) × ((7 ≤ fixed) × (fixed < 65536)) }
    ensures { result ≡ laid_out kind fixed (frame_of line.now) }
{
    let size = line_digits::size(line);
    fixed <= size && head_ok(line, kind) && size == fixed + 4 * d(line)
}

// [5.4] Writes a head: byte 0 kind, 1 to 4 table, 5 measure, 6 d.
#[tactic(auto, using(crate::proofs::PartLaws::over_then), unfolding(paper::specs::Fields::head))]
pub fn put_head(out: &mut [u8], kind: u8, table: u32, measure: u8, d: u8)
    requires { 14 ≤ length out.old }
    ensures { out.new ≡ overlaid out.old 0 (head kind table measure d) }
{
    line_digits::put(out, 0, 1, kind as u64);
    line_digits::put(out, 1, 4, table as u64);
    line_digits::put(out, 5, 1, measure as u64);
    line_digits::put(out, 6, 1, d as u64);
}

// [5.3] Writes coordinates from byte `at` on, four bytes for each.
#[tactic(auto, using(crate::proofs::PartLaws::one_by_one))]
pub fn put_coords(out: &mut [u8], at: usize, coords: &[i32])
    requires { 2 * (at + 4 * length coords.now) ≤ length out.old }
    ensures { out.new ≡ overlaid out.old at (coord_bytes coords.now) }
{
    for (i, z) in coords.iter().enumerate() {
        line_digits::put(out, at + 4 * i, 4, line_digits::pattern(*z) as u64);
    }
}

// [5.3] [5.14] The d coordinates from byte `at` on, four bytes for each, and 0 behind them.
#[tactic(auto, using(line_digits::proofs::LinesAndFrames::frame_le), unfolding(paper::specs::Fields::in_slots, paper::specs::Fields::coords_in))]
pub fn coords_at(line: &[u8], at: usize, d: usize) -> [i32; MOST_COORDINATES]
    requires { HasBytes line.now (at + 4 * d) × (d ≤ most_coordinates) }
    ensures { result ≡ in_slots d (coords_in d (drop at (frame_of line.now))) }
{
    let mut found = [0; MOST_COORDINATES];
    for i in 0..d {
        found[i] = line_digits::signed(line_digits::number(line, at + 4 * i, 4) as u32);
    }
    found
}

// [5.8] [5.9] [5.10] Whether a scope is in range, and its mark 0 at the start.
#[tactic(auto, unfolding(paper::specs::Fields::scope_ok))]
pub fn scope_ok(p: Scope) -> bool
    ensures { result ≡ scope_ok p }
{
    p.from <= 1
        && p.snapshot <= Scope::MOST_SNAPSHOT
        && p.number <= Scope::MOST_NUMBER
        && (p.from == 1 || (p.distance == 0 && p.number == 0))
}

// [5.5] Writes the reach and the scope behind it.
#[tactic(auto, using(crate::proofs::PartLaws::over_then), unfolding(paper::specs::Fields::scope_bytes))]
fn put_scope(out: &mut [u8], at: usize, reach: u64, p: Scope)
    requires { 2 * (at + 21) ≤ length out.old }
    ensures { out.new ≡ overlaid out.old at (scope_bytes reach p) }
{
    line_digits::put(out, at, 8, reach);
    line_digits::put(out, at + 8, 1, p.from as u64);
    line_digits::put(out, at + 9, 2, p.snapshot as u64);
    line_digits::put(out, at + 11, 8, p.distance);
    line_digits::put(out, at + 19, 2, p.number as u64);
}

// [5.5] The scope behind the reach, which has bytes `at` to at + 7: at + 8 from, at + 9 snapshot (2), at + 11 the mark's distance (8) and
// at + 19 its number (2).
#[tactic(auto, using(line_digits::proofs::LinesAndFrames::frame_le))]
pub fn scope_at(line: &[u8], at: usize) -> Scope
    requires { HasBytes line.now (at + 21) }
    ensures { result ≡ scope_in (drop at (frame_of line.now)) }
{
    Scope {
        from: line_digits::number(line, at + 8, 1) as u8,
        snapshot: line_digits::number(line, at + 9, 2) as u16,
        distance: line_digits::number(line, at + 11, 8),
        number: line_digits::number(line, at + 19, 2) as u16,
    }
}

// [5.5] [5.6] Writes what an ask and an answer begin with: the head, the probe from byte 7, then reach (8) and scope (13), 28 + 4d in all.
#[tactic(auto, using(crate::proofs::PartLaws::fronting), unfolding(paper::specs::Fields::front))]
pub fn put_front(out: &mut [u8], kind: u8, q: Query, p: Scope)
    requires { (q.d ≤ most_coordinates) × (2 * (28 + 4 * q.d) ≤ length out.old) }
    ensures { out.new ≡ overlaid out.old 0 (Fields·front kind (query_in q) p) }
{
    put_head(out, kind, q.table, q.measure, q.d as u8);
    put_coords(out, 7, &q.probe[..q.d]);
    put_scope(out, 7 + 4 * q.d, q.reach, p);
}
