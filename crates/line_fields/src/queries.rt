// A query with its probe in eight slots, from a probe of d coordinates.
ghost use Rattle.std.specs.Prelude.{◌≡◌, ◌≤◌, length};
ghost use Rattle.paper.specs.Fields.{query_in_slots};
ghost use Rattle.paper.specs.Orders.{query_in};
ghost use Rattle.paper.specs.Lines.{query_fits};
ghost use Rattle.paper.specs.Limits.{most_coordinates};

use checks::{in_range, padded};
use paper::orders::Order;
use paper::queries::Query;

// [7.1] The query of these parts.
#[tactic(auto, unfolding(paper::specs::Fields::query_in_slots))]
pub fn query_of(order: Order, table: u32, measure: u8, d: usize, probe: &[i32], reach: u64) -> Query
    requires { (length probe.now ≡ d) × (d ≤ most_coordinates) }
    ensures { result ≡ query_in_slots (record { order = order; table = table; measure = measure; d = d; probe = probe.now; reach = reach }) }
{
    Query {
        order,
        table,
        measure,
        d,
        probe: padded(probe),
        reach,
    }
}

// [8.10] Whether a line can carry a query: there are such a measure and d.
pub fn query_fits(q: Query) -> bool
    ensures { result ≡ query_fits (query_in q) }
{
    in_range(q.measure, q.d)
}
