// The lines of an input that comes in chunks, for every program. [10.8] The line so far stands in a lent room, and the room's length is
// the longest line: of a longer one the front is kept, and its size is one more than the room's length.
#![tactic(auto)]

ghost use Rattle.std.specs.Prelude.{◌≡◌, ◌<◌, ◌^◌, length, drop};
ghost use Rattle.office_cut.specs.Cut.{cut_with, cut_of, line_in, has_end, grown, kept_of};

// How far the chunk is read, the size of the line so far, and whether its end was met. A line has a size whether it is whole or not, so neither
// holds the other.
#[derive(Clone, Copy)]
pub struct Piece {
    pub at: usize,
    pub size: usize,
    pub whole: bool,
}

// The bytes up to the first end of a line, which is the last of them, and whether there is one.
fn first_line(bytes: &[u8]) -> (&[u8], bool)
    ensures line { result.0.now ≡ line_in bytes.now }
    ensures end { result.1 ≡ has_end bytes.now }
{
    match bytes.iter().position(|b| *b == b'\n') {
        Some(k) => (&bytes[..=k], true),
        None => (bytes, false),
    }
}

// Puts the bytes behind the n of the line, as far as there is room.
fn keep(line: &mut [u8], n: usize, bytes: &[u8])
    ensures { line.new ≡ kept_of line.old n bytes.now }
{
    if n < line.len() {
        let fits = bytes.len().min(line.len() - n);
        line[n..n + fits].copy_from_slice(&bytes[..fits]);
    }
}

// [10.8] The size of a line of n bytes with so many more, where more than `most` count as one more than that.
fn grow(most: usize, n: usize, more: usize) -> usize
    requires few { more < 2 ^ 63 }
    requires small { most < 2 ^ 63 }
    ensures { result ≡ grown most n more }
{
    if n <= most {
        (n + more).min(most + 1)
    } else {
        n
    }
}

// [10.8] [10.11] Adds the bytes of the chunk from `from` on to the line so far, up to the end of the line or of the chunk.
pub fn cut(line: &mut [u8], size: usize, chunk: &[u8], from: usize) -> Piece
    ensures { cut_with line.new result ≡ cut_of (length line.old) line.old size from (drop from chunk.now) }
{
    let rest = &chunk[from.min(chunk.len())..];
    let (bytes, whole) = first_line(rest);
    keep(line, size, bytes);
    Piece {
        at: from + bytes.len(),
        size: grow(line.len(), size, bytes.len()),
        whole,
    }
}
