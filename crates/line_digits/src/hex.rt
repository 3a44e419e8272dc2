// Digits, and whether a line is made of them.
ghost use Rattle.std.specs.Prelude.{◌≡◌, ◌<◌, ◌&&◌, true, ltb, fold};
ghost use Rattle.paper.specs.Frames.{is_line};
ghost use Rattle.paper.specs.Frames.{glyph as Frames·glyph, digit as Frames·digit, pairs_ended as Frames·pairs_ended};

use paper::limits::LONGEST_ANSWER;

// [5.1] The digit of a number below 16.
#[tactic(auto, unfolding(paper::specs::Frames::glyph))]
pub fn glyph(n: u8) -> u8
    requires { n < 16 }
    ensures { result ≡ Frames·glyph n }
{
    if n < 10 { b'0' + n } else { b'a' + (n - 10) }
}

// [5.1] Whether a byte is a digit: 0 to 9, or a to f.
#[tactic(auto, unfolding(paper::specs::Frames::digit))]
fn is_digit(b: u8) -> bool
    ensures { result ≡ ltb (Frames·digit b) 16 }
{
    b.is_ascii_digit() | matches!(b, b'a'..=b'f')
}

// [5.1] The value of a digit. 0 to 9 have it as their lower half; a to f, which are over 64, have nine less there. In 32 bits items are read in
// fewer instructions than in 8 or in 64.
#[tactic(auto, unfolding(paper::specs::Frames::digit))]
pub fn digit(b: u8) -> u32
    requires { Frames·digit b < 16 }
    ensures { result ≡ Frames·digit b }
{
    let n = b as u32;
    n % 16 + n / 64 * 9
}

// [8.9] Whether all characters are digits. All are looked at: without an early end the compiler looks at several at a time.
fn are_digits(characters: &[u8]) -> bool
    ensures { result ≡ fold (λ ok b. ok && ltb (Frames·digit b) 16) true characters.now }
{
    characters.iter().fold(true, |ok, b| ok & is_digit(*b))
}

// [8.9] Whether characters are pairs of digits with 0A behind them.
#[tactic(auto, using(crate::proofs::LinesAndFrames::endings))]
fn pairs_ended(line: &[u8]) -> bool
    ensures { result ≡ Frames·pairs_ended line.now }
{
    let [digits @ .., 10] = line else {
        return false;
    };
    digits.len() % 2 == 0 && are_digits(digits)
}

// [8.9] Whether a line is pairs of digits, one at least, with 0A behind them, and not too long.
#[tactic(auto, unfolding(paper::specs::Frames::is_line))]
pub fn is_sound(line: &[u8]) -> bool
    ensures { result ≡ is_line line.now }
{
    1 < line.len() && line.len() <= LONGEST_ANSWER && pairs_ended(line)
}
