// Where a line of the asks ends.
ghost use Rattle.std.specs.Prelude.{◌≡◌, ◌+◌, ◌<◌, length, drop};
ghost use Rattle.nearby_batch.specs.Batch.{cut_at};

// Where the line that starts at `at` ends.
pub fn line_end(asks: &[u8], at: usize) -> usize
    requires { at < length asks.now }
    ensures { result ≡ at + cut_at (drop at asks.now) }
{
    match asks[at..].iter().position(|b| *b == b'\n') {
        Some(k) => at + k + 1,
        None => asks.len(),
    }
}
