// [5.6] The items of an answer line: number, reference and distance for each.
ghost use Rattle.std.specs.Prelude.{◌≡◌, ◌&&◌, ◌+◌, ◌*◌, ◌≤◌, length, drop, eqb};
ghost use Rattle.paper.specs.Fields.{item_frame, item_bytes, item_numbers, item_slots, numbers_ok, references_ok};
ghost use Rattle.line_digits.specs.FrameBytes.{overlaid, HasBytes};
ghost use Rattle.paper.specs.Frames.{frame_of};
ghost use Rattle.paper.specs.Limits.{most_page};

use paper::limits::{ITEM_ROOM, MOST_NUMBER};

#[tactic(auto, using(crate::proofs::PartLaws::over_then), unfolding(paper::specs::Fields::item_frame))]
fn put_item(out: &mut [u8], at: usize, n: u64, r: u64, x: u64)
    requires { 2 * (at + 14) ≤ length out.old }
    ensures { out.new ≡ overlaid out.old at (item_frame n r x) }
{
    line_digits::put(out, at, 2, n);
    line_digits::put(out, at + 2, 4, r);
    line_digits::put(out, at + 6, 8, x);
}

// [5.6] Writes k items from byte `at` on, 14 bytes for each: number (2), reference (4), distance (8).
#[tactic(auto, using(crate::proofs::ItemLaws::one_by_one))]
pub fn put_items(out: &mut [u8], at: usize, items: &[u64], k: usize)
    requires { (length items.now ≡ 3 * k) × ((k ≤ most_page) × (2 * (at + 14 * k) ≤ length out.old)) }
    ensures { out.new ≡ overlaid out.old at (item_bytes items.now) }
{
    for i in 0..k {
        let j = 3 * i;
        put_item(out, at + 14 * i, items[j], items[j + 1], items[j + 2]);
    }
}

// [5.6] [5.14] The k items from byte `at` on, 14 bytes for each, and 0 behind them.
#[tactic(auto, using(line_digits::proofs::LinesAndFrames::frame_le), unfolding(paper::specs::Fields::item_slots, paper::specs::Fields::item_numbers))]
pub fn items_at(line: &[u8], at: usize, k: usize) -> [u64; ITEM_ROOM]
    requires { HasBytes line.now (at + 14 * k) × (k ≤ most_page) }
    ensures { result ≡ item_slots k (item_numbers k (drop at (frame_of line.now))) }
{
    let mut found = [0; ITEM_ROOM];
    for i in 0..k {
        let j = 3 * i;
        let a = at + 14 * i;
        found[j] = line_digits::number(line, a, 2);
        found[j + 1] = line_digits::number(line, a + 2, 4);
        found[j + 2] = line_digits::number(line, a + 6, 8);
    }
    found
}

// [5.9] Whether each of the k items from byte `at` on, 14 bytes for each, has a number (its first two) in range. It is put to the line and not to
// items that were read: these would then stand in memory twice, once to be tested and once to be handed on.
pub fn numbers_ok(line: &[u8], at: usize, k: usize) -> bool
    requires { HasBytes line.now (at + 14 * k) }
    ensures { result ≡ numbers_ok (item_numbers k (drop at (frame_of line.now))) }
{
    (0..k).all(|i| line_digits::number(line, at + 14 * i, 2) <= MOST_NUMBER)
}

// [8.10] Whether a writer was handed k items, and each fits its fields.
pub fn items_fit(items: &[u64], k: u8) -> bool
    ensures { result ≡ eqb (length items.now) (3 * k) && (references_ok items.now && numbers_ok items.now) }
{
    let (triples, _) = items.as_chunks::<3>();
    items.len() == 3 * k as usize
        && triples
            .iter()
            .all(|[n, r, _]| *n <= MOST_NUMBER && *r <= u64::from(u32::MAX))
}
