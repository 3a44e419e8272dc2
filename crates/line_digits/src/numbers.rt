// Numbers of up to 8 bytes in a line, and signed numbers as patterns.
ghost use Rattle.std.specs.Prelude.{◌≡◌, ◌+◌, ◌*◌, ◌≤◌, ◌<◌, [], ◌∷◌, length, get_or};
ghost use Rattle.std.specs.Int.{w32};
ghost use Rattle.std.proofs.Common.{of_z, to_z};
ghost use Rattle.paper.specs.Frames.{be, frame_of};
ghost use Rattle.line_digits.specs.FrameBytes.{overlaid, HasBytes, Field};

use crate::hex::{digit, glyph};

// [5.1] Writes byte `at` of the frame of the line that `out` holds, as its two digits.
#[tactic(auto, using(crate::proofs::WritingOver::set_pair), unfolding(crate::specs::FrameBytes::overlaid, paper::specs::Frames::hexes))]
fn put_byte(out: &mut [u8], at: usize, b: u8)
    requires { 2 * (at + 1) ≤ length out.old }
    ensures { out.new ≡ overlaid out.old at (b ∷ []) }
{
    out[2 * at] = glyph(b / 16);
    out[2 * at + 1] = glyph(b % 16);
}

// [5.2] Writes n in w bytes, as digits, at byte `at` of the line that `out` holds.
#[tactic(auto, using(crate::proofs::WritingOver::bytewise))]
pub fn put(out: &mut [u8], at: usize, w: usize, n: u64)
    requires { 2 * (at + w) ≤ length out.old }
    ensures { out.new ≡ overlaid out.old at (be w n) }
{
    let mut rest = n;
    for i in (0..w).rev() {
        put_byte(out, at + i, (rest % 256) as u8);
        rest /= 256;
    }
}

// [5.1] How many bytes a line's frame has: one for every two characters.
#[tactic(auto, using(crate::proofs::LinesAndFrames::length_frame))]
pub fn size(line: &[u8]) -> usize
    ensures { result ≡ length (frame_of line.now) }
{
    line.len() / 2
}

// [5.1] Byte `at` of a line's frame, from its two digits.
#[tactic(auto, using(crate::proofs::LinesAndFrames::pairwise))]
fn byte(line: &[u8], at: usize) -> u32
    requires { HasBytes line.now (at + 1) }
    ensures { (result ≡ get_or (frame_of line.now) at 0) × (result < 256) }
{
    let k = 2 * at;
    digit(line[k]) * 16 + digit(line[k + 1])
}

// [5.2] The number in the w bytes from byte `at` on of a line's frame. Soundness was tested, so a digit is worked out without a test.
#[tactic(auto, using(crate::proofs::LinesAndFrames::frame_le, crate::proofs::NumbersAndFrames::bytewise))]
pub fn number(line: &[u8], at: usize, w: usize) -> u64
    requires { HasBytes line.now (at + w) × (w ≤ 8) }
    ensures { Field line.now at w result }
{
    let mut acc = 0;
    for i in 0..w {
        acc = acc * 256 + byte(line, at + i) as u64;
    }
    acc
}

// [5.3] A signed number's pattern in two's complement.
pub fn pattern(x: i32) -> u32
    ensures { result ≡ of_z w32 x }
{
    x.cast_unsigned()
}

// [5.3] The signed number of a pattern.
pub fn signed(n: u32) -> i32
    ensures { result ≡ to_z w32 n }
{
    n.cast_signed()
}
