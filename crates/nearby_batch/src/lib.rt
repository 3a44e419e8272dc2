// [6.5] A buffer of ask lines in, answer lines out: the table is tested once, and then line after line is answered as the
// office's single call would answer it.
#![tactic(auto)]

mod ends;
mod outcomes;
mod turns;

ghost use Rattle.nearby_batch.specs.Batch.{batch_call, two_rooms, AnswersAll};
ghost use Rattle.paper.specs.Outcomes.{told};

use paper::lent::LentTable;
use paper::limits::LONGEST_ANSWER;
pub use paper::lines::Answered;
use paper::refusals::Refusal;
use turns::answer_lines;

// [9.18] Refusals 12, 1, 2; a line's own refusals stand beside it.
pub fn answer_all(
    table: &LentTable<'_>,
    asks: &[u8],
    outcomes: &mut [u64],
    out: &mut [u8],
) -> Result<Answered, Refusal>
    ensures { AnswersAll (batch_call table.now asks.now outcomes.old out.old) (two_rooms outcomes.old out.old) (told result) (two_rooms outcomes.new out.new) }
{
    if out.len() < LONGEST_ANSWER {
        return Err(Refusal::RoomTooShort);
    }
    nearby::test_table(table)?;
    Ok(answer_lines(table, asks, outcomes, out))
}
