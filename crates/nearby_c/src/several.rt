// Many questions and many lines, for which the table is tested once.
ghost use Rattle.paper.specs.Outcomes.{number};
ghost use Rattle.paper.specs.Outcomes as Outcomes;
ghost use Rattle.paper.specs.Tree.{lent};
ghost use Rattle.nearby_many.specs.Rows.{instead};
ghost use Rattle.nearby_many.specs.Many.{nearest_each, farthest_each};
ghost use Rattle.nearby_many.specs.Pages.{both_rooms, pages_each};
ghost use Rattle.c_values.specs.Values.{answered_out};
ghost use Rattle.nearby_batch.specs.Batch.{batch_call, two_rooms, batch_shown, put_batch};

use c_values::{LinesAnswered, refusal_number};
use paper::lent::LentTable;
use paper::tables::Table;

// [9.16] Refusals 1, 2, 5, 12.
#[unsafe(no_mangle)]
pub extern "C" fn nearby_many_nearest(
    t: Table,
    references: &[u32],
    coordinates: &[i32],
    nodes: &[u64],
    probes: &[i32],
    reaches: &[u64],
    out: &mut [u64],
) -> u8
    ensures { Outcomes.Promise number instead (nearest_each (lent t references.entry coordinates.entry nodes.entry) probes.now reaches.now out.old) out.old result out.new }
{
    let table = LentTable::new(t, references, coordinates, nodes);
    refusal_number(nearby_many::nearest_each(&table, probes, reaches, out))
}

// [9.16] Refusals 1, 2, 5, 12.
#[unsafe(no_mangle)]
pub extern "C" fn nearby_many_farthest(
    t: Table,
    references: &[u32],
    coordinates: &[i32],
    nodes: &[u64],
    probes: &[i32],
    n: usize,
    out: &mut [u64],
) -> u8
    ensures { Outcomes.Promise number instead (farthest_each (lent t references.entry coordinates.entry nodes.entry) probes.now n out.old) out.old result out.new }
{
    let table = LentTable::new(t, references, coordinates, nodes);
    refusal_number(nearby_many::farthest_each(&table, probes, n, out))
}

// [9.17] Refusals 1, 2, 5, 6, 12; and 7, 8 of each question.
#[unsafe(no_mangle)]
pub extern "C" fn nearby_many_pages(
    t: Table,
    references: &[u32],
    coordinates: &[i32],
    nodes: &[u64],
    probes: &[i32],
    reaches: &[u64],
    places: &[u64],
    size: usize,
    outcomes: &mut [u64],
    items: &mut [u64],
) -> u8
    ensures { Outcomes.Promise number instead (pages_each (lent t references.entry coordinates.entry nodes.entry) probes.now reaches.now places.now size (both_rooms outcomes.old items.old))
        (both_rooms outcomes.old items.old) result (both_rooms outcomes.new items.new) }
{
    let table = LentTable::new(t, references, coordinates, nodes);
    refusal_number(nearby_many::pages_each(&table, probes, reaches, places, size, outcomes, items))
}

// [9.18] Refusals 12, 1, 2; and 9, 10, 11, 7, 8 of each line.
#[unsafe(no_mangle)]
pub extern "C" fn nearby_many_answers(
    t: Table,
    references: &[u32],
    coordinates: &[i32],
    nodes: &[u64],
    asks: &[u8],
    outcomes: &mut [u64],
    out: &mut [u8],
) -> LinesAnswered
    ensures { Outcomes.Promise (λ u. answered_out (batch_shown u)) put_batch (batch_call (lent t references.entry coordinates.entry nodes.entry) asks.now outcomes.old out.old) (two_rooms outcomes.old out.old) result (two_rooms outcomes.new out.new) }
{
    let table = LentTable::new(t, references, coordinates, nodes);
    LinesAnswered::from(nearby_batch::answer_all(&table, asks, outcomes, out))
}
