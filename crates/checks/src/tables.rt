// Whether a line is about a table.
ghost use Rattle.std.specs.Prelude.{◌≡◌, ◌&&◌, eqb};

use paper::tables::Table;

// [6.2] [8.11] Whether a line is for this table: its number, measure and d.
pub fn is_ours(t: Table, number: u32, measure: u8, d: usize) -> bool
    ensures { result ≡ eqb number t.number && (eqb measure t.measure && eqb d t.d) }
{
    number == t.number && measure == t.measure && d == t.d
}
