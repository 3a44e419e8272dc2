// Making an empty table, testing a table, and entering claims. Where memory is written it comes as parameters (tree::runs).
ghost use Rattle.std.specs.Prelude.{◌≡◌};
ghost use Rattle.paper.specs.Outcomes.{Promise, number, told};
ghost use Rattle.paper.specs.Tree.{lent, lent_mut, lent_memory};
ghost use Rattle.paper.specs.Runs.{empty_table, make_call, enter_call, entered_shown, put_store};
ghost use Rattle.paper.specs.Calls.{table_refusal};

use checks::is_whole;
use paper::lent::LentTable;
use paper::refusals::Refusal;
use paper::tables::Table;
use tree::runs::add_run;
use tree::soundness::{is_fit, is_sound};
use tree_repeats::runs::are_new;

// [9.4] [3.16] Refusal 1. The header alone is made: the lent memory keeps what it holds, and comes in parts, as there is no table to lend yet.
pub fn make_table(
    number: u32,
    measure: u8,
    d: usize,
    capacity: usize,
    references: &[u32],
    coordinates: &[i32],
    nodes: &[u64],
) -> Result<Table, Refusal>
    ensures { told result ≡ make_call (lent (empty_table number measure d capacity) references.entry coordinates.entry nodes.entry) }
{
    let t = Table {
        number,
        measure,
        d,
        capacity,
        count: 0,
        used: 0,
    };
    if !is_fit(t, references, coordinates, nodes) {
        return Err(Refusal::OutOfRange);
    }
    Ok(t)
}

// [9.5] Refusals 1, 2: whether a table may be asked.
pub fn test_table(table: &LentTable<'_>) -> Result<(), Refusal>
    ensures { number (told result) ≡ table_refusal table.now }
{
    if !is_fit(
        table.header,
        table.references,
        table.coordinates,
        table.nodes,
    ) {
        return Err(Refusal::OutOfRange);
    }
    if !is_sound(table.header, table.coordinates, table.nodes) {
        return Err(Refusal::Unsound);
    }
    Ok(())
}

// [9.6] Whether a run may be entered. Nothing is written.
fn test_run(table: &LentTable<'_>, given: &[u32], points: &[i32]) -> Result<(), Refusal>
    ensures { number (told result) ≡ number (enter_call table.now given.now points.now) }
{
    test_table(table)?;
    let t = table.header;
    if !is_whole(t.d, given.len(), points.len()) {
        return Err(Refusal::Coordinates);
    }
    if !are_new(table.references, t.count, given) {
        return Err(Refusal::KnownReference);
    }
    if t.capacity - t.count < given.len() {
        return Err(Refusal::TableFull);
    }
    Ok(())
}

// [9.6] [3.15] Refusals 1, 2, 5, 17, 3. All claims of the run are entered, or none.
pub fn enter(
    t: Table,
    references: &mut [u32],
    coordinates: &mut [i32],
    nodes: &mut [u64],
    given: &[u32],
    points: &[i32],
) -> Result<Table, Refusal>
    ensures { Promise entered_shown put_store
        (enter_call (lent_mut t references.entry coordinates.entry nodes.entry) given.now points.now)
        (lent_memory references.entry coordinates.entry nodes.entry) (told result) (lent_memory references.exit coordinates.exit nodes.exit) }
{
    test_run(
        &LentTable::new(t, references, coordinates, nodes),
        given,
        points,
    )?;
    Ok(add_run(t, references, coordinates, nodes, given, points))
}
