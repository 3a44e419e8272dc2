// [6.1] The office: the answer line to an ask line.
ghost use Rattle.std.specs.Prelude.{length};
ghost use Rattle.paper.specs.Tree.{lent};
ghost use Rattle.paper.specs.Calls.{office_call};
ghost use Rattle.c_values.specs.Values.{WritesOut};

use c_values::Written;
use paper::lent::LentTable;
use paper::tables::Table;

// [9.10] Refusals 12, 1, 2, 9, 10, 11, 7, 8.
#[unsafe(no_mangle)]
pub extern "C" fn nearby_answer(
    t: Table,
    references: &[u32],
    coordinates: &[i32],
    nodes: &[u64],
    line: &[u8],
    out: &mut [u8],
) -> Written
    ensures { WritesOut (office_call (lent t references.entry coordinates.entry nodes.entry) (length out.old) line.now) out.old result out.new }
{
    let table = LentTable::new(t, references, coordinates, nodes);
    Written::from(nearby::answer(&table, line, out))
}
