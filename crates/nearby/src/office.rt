// [6.1] The office: the answer line to an ask line.
ghost use Rattle.std.specs.Prelude.{length};
ghost use Rattle.paper.specs.Calls.{office_call};
ghost use Rattle.paper.specs.Outcomes.{told};
ghost use Rattle.paper.specs.Lines.{Writes};

use crate::tables::test_table;
use paper::lent::LentTable;
use paper::limits::LONGEST_ANSWER;
use paper::refusals::Refusal;

// [9.10] Refusals 12, 1, 2, 9, 10, 11, 7, 8.
pub fn answer(table: &LentTable<'_>, line: &[u8], out: &mut [u8]) -> Result<usize, Refusal>
    ensures { Writes (office_call table.now (length out.old) line.now) out.old (told result) out.new }
{
    if out.len() < LONGEST_ANSWER {
        return Err(Refusal::RoomTooShort);
    }
    test_table(table)?;
    end_office::answer_line(table, line, out)
}
