// Line after line.
ghost use Rattle.std.specs.Prelude.{◌≡◌, length};
ghost use Rattle.paper.specs.Calls.{table_refusal};
ghost use Rattle.nearby_batch.specs.Batch.{batch_start, goes, step, batch_answered, batch_of, LineLeft};

use super::ends::line_end;
use super::outcomes::put_row;
use paper::lent::LentTable;
use paper::limits::LONGEST_ANSWER;
use paper::lines::Answered;

// [6.7] Whether a byte of the asks is left, a row of the outcomes, and room for the longest line.
#[tactic(auto, unfolding(crate::specs::Batch::goes))]
fn goes_on(done: Answered, asks: &[u8], outcomes: &[u64], out: &[u8]) -> bool
    ensures { result ≡ goes asks.now (batch_of done outcomes.now out.now) }
{
    done.used < asks.len()
        && done.lines < outcomes.len() / 2
        && LONGEST_ANSWER <= out.len()
        && done.written <= out.len() - LONGEST_ANSWER
}

// Answers the next line.
fn answer_next(
    table: &LentTable<'_>,
    asks: &[u8],
    done: Answered,
    outcomes: &mut [u64],
    out: &mut [u8],
) -> Answered
    requires { LineLeft table.now asks.now (batch_of done outcomes.old out.old) }
    ensures { batch_of result outcomes.new out.new ≡ step table.now asks.now (batch_of done outcomes.old out.old) }
{
    let end = line_end(asks, done.used);
    let wrote = end_office::answer_line(table, &asks[done.used..end], &mut out[done.written..]);
    put_row(outcomes, done.lines, wrote);
    Answered {
        lines: done.lines + 1,
        used: end,
        written: done.written + wrote.unwrap_or(0),
    }
}

// [6.5] [6.7] Answers lines while there is one, and room for it.
pub fn answer_lines(
    table: &LentTable<'_>,
    asks: &[u8],
    outcomes: &mut [u64],
    out: &mut [u8],
) -> Answered
    requires { 0 ≡ table_refusal table.now }
    ensures { batch_of result outcomes.new out.new ≡ batch_answered (length asks.now) table.now asks.now (batch_start outcomes.old out.old) }
{
    let mut done = Answered {
        lines: 0,
        used: 0,
        written: 0,
    };
    // No index is counted: where a line ends is known when it is answered.
    while goes_on(done, asks, outcomes, out) {
        done = answer_next(table, asks, done, outcomes, out);
    }
    done
}
