// [9.11] [7.2] Opening a list: nothing is held yet, and the probe stands in eight slots.
ghost use Rattle.std.specs.Prelude.{◌≡◌};
ghost use Rattle.paper.specs.Outcomes.{told};
ghost use Rattle.paper.specs.Lists.{opening_held};

use checks::in_range;
use paper::lists::List;
use paper::orders::Order;
use paper::refusals::Refusal;

pub fn open_list(
    order: Order,
    table: u32,
    measure: u8,
    d: usize,
    probe: &[i32],
    reach: u64,
) -> Result<List, Refusal>
    ensures { told result ≡ opening_held (record { order = order; table = table; measure = measure; d = d; probe = probe.now; reach = reach }) }
{
    if !in_range(measure, d) {
        return Err(Refusal::OutOfRange);
    }
    if probe.len() != d {
        return Err(Refusal::Coordinates);
    }
    Ok(List {
        query: line_fields::query_of(order, table, measure, d, probe, reach),
        started: false,
        snapshot: 0,
        count: 0,
        complete: false,
    })
}
