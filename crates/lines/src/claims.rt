// [5.7] The claim line, kind 03.
ghost use Rattle.std.specs.Prelude.{◌≡◌, true, ◌≤◌, length};
ghost use Rattle.paper.specs.Frames.{is_line, line_of, written};
ghost use Rattle.paper.specs.Outcomes.{told};
ghost use Rattle.paper.specs.Lines.{Writes, bare_line, claim_frame, claim_fits, read_as_claim};
ghost use Rattle.paper.specs.Limits.{longest_claim, most_coordinates};

use checks::in_range;
use paper::limits::{LONGEST_CLAIM, MOST_COORDINATES};
use paper::lines::ClaimLine;
use paper::refusals::Refusal;

// [8.10] Whether a claim can have these fields.
fn claim_fits(measure: u8, d: u8, coords: &[i32]) -> bool
    ensures { result ≡ claim_fits measure d coords.now }
{
    if in_range(measure, d as usize) {
        return coords.len() == d as usize;
    }
    false
}

// Writes the claim's line into a room that is large enough, and gives its length.
fn fill_claim(
    table: u32,
    measure: u8,
    d: u8,
    reference: u32,
    coords: &[i32],
    out: &mut [u8],
) -> usize
    requires { (length coords.now ≤ most_coordinates) × (longest_claim ≤ length out.old) }
    ensures { (result ≡ length (line_of (claim_frame table measure d reference coords.now))) × (out.new ≡ written (claim_frame table measure d reference coords.now) out.old) }
{
    line_fields::put_head(out, ClaimLine::KIND, table, measure, d);
    line_digits::put(out, 7, 4, reference as u64);
    line_fields::put_coords(out, 11, coords);
    let n = 22 + 8 * coords.len();
    out[n] = 10;
    n + 1
}

// [5.7] [9.14] Writes a claim: the head of 7 bytes, reference (4), point (4d). Refusals 10, 12.
pub fn write_claim(
    table: u32,
    measure: u8,
    d: u8,
    reference: u32,
    coords: &[i32],
    out: &mut [u8],
) -> Result<usize, Refusal>
    ensures { Writes (bare_line (claim_fits measure d coords.now) longest_claim (claim_frame table measure d reference coords.now) (length out.old)) out.old (told result) out.new }
{
    if !claim_fits(measure, d, coords) {
        return Err(Refusal::Fields);
    }
    if out.len() < LONGEST_CLAIM {
        return Err(Refusal::RoomTooShort);
    }
    Ok(fill_claim(table, measure, d, reference, coords, out))
}

// [5.7] [8.10] The claim in a sound line: reference from byte 7, point from byte 11. Refusal 10.
pub fn claim_in(line: &[u8]) -> Result<ClaimLine, Refusal>
    requires { is_line line.now ≡ true }
    ensures { told result ≡ read_as_claim line.now }
{
    if !line_fields::layout_ok(line, ClaimLine::KIND, 11) {
        return Err(Refusal::Fields);
    }
    let d = line_fields::d(line);
    let coordinates = line_fields::coords_at(line, 11, d);
    let claim = ClaimLine {
        table: line_fields::table(line),
        measure: line_fields::measure(line),
        d: d as u8,
        reference: line_digits::number(line, 7, 4) as u32,
        coordinates,
    };
    Ok(claim)
}

// [5.7] [9.15] Reads a claim's line. Refusals 9, 10.
pub fn read_claim(line: &[u8]) -> Result<ClaimLine, Refusal>
    ensures { told result ≡ read_as_claim line.now }
{
    if !line_digits::is_sound(line) {
        return Err(Refusal::NoLine);
    }
    claim_in(line)
}
