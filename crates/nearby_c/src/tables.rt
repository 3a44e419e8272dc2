// Making a table, testing it, and entering claims.
ghost use Rattle.std.specs.Prelude.{◌≡◌};
ghost use Rattle.paper.specs.Outcomes.{Promise};
ghost use Rattle.paper.specs.Tree.{lent, lent_mut, lent_memory};
ghost use Rattle.paper.specs.Runs.{empty_table, make_call, enter_call, entered_shown, put_store};
ghost use Rattle.paper.specs.Calls.{table_refusal};
ghost use Rattle.c_values.specs.Values.{table_out};

use c_values::{Tabled, refusal_number};
use paper::lent::LentTable;
use paper::tables::Table;

// [9.4] Refusal 1.
#[unsafe(no_mangle)]
pub extern "C" fn nearby_make_table(
    number: u32,
    measure: u8,
    d: usize,
    capacity: usize,
    references: &[u32],
    coordinates: &[i32],
    nodes: &[u64],
) -> Tabled
    ensures { result ≡ table_out (make_call (lent (empty_table number measure d capacity) references.entry coordinates.entry nodes.entry)) }
{
    Tabled::from(nearby::make_table(number, measure, d, capacity, references, coordinates, nodes))
}

// [9.5] Refusals 1, 2: as every call on a table tests it.
#[unsafe(no_mangle)]
pub extern "C" fn nearby_test_table(
    t: Table,
    references: &[u32],
    coordinates: &[i32],
    nodes: &[u64],
) -> u8
    ensures { result ≡ table_refusal (lent t references.entry coordinates.entry nodes.entry) }
{
    let table = LentTable::new(t, references, coordinates, nodes);
    refusal_number(nearby::test_table(&table))
}

// [9.6] Refusals 1, 2, 5, 17, 3.
#[unsafe(no_mangle)]
pub extern "C" fn nearby_enter(
    t: Table,
    references: &mut [u32],
    coordinates: &mut [i32],
    nodes: &mut [u64],
    given: &[u32],
    points: &[i32],
) -> Tabled
    ensures { Promise (λ o. table_out (entered_shown o)) put_store
        (enter_call (lent_mut t references.entry coordinates.entry nodes.entry) given.now points.now)
        (lent_memory references.entry coordinates.entry nodes.entry) result (lent_memory references.exit coordinates.exit nodes.exit) }
{
    Tabled::from(nearby::enter(t, references, coordinates, nodes, given, points))
}
