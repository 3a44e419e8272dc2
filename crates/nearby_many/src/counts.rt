// Whether many questions may be asked.
ghost use Rattle.std.specs.Prelude.{◌≡◌};
ghost use Rattle.paper.specs.Outcomes.{number, told};
ghost use Rattle.nearby_many.specs.Counts.{many_refusal};

use checks::is_whole;
use paper::lent::LentTable;
use paper::refusals::Refusal;

// [8.5] Refusals 1, 2, 5: whether n questions may be asked with so many probe coordinates.
pub fn test_many(table: &LentTable<'_>, probes: usize, n: usize) -> Result<(), Refusal>
    ensures { number (told result) ≡ many_refusal table.now probes n }
{
    nearby::test_table(table)?;
    if !is_whole(table.header.d, n, probes) {
        return Err(Refusal::Coordinates);
    }
    Ok(())
}
