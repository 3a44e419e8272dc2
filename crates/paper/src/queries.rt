// [7.1] What a list is opened for: its asks and their answers repeat it. The measure is a number, as in lines: what is out of range is refused.
use crate::limits::MOST_COORDINATES;
use crate::orders::Order;

#[derive(Clone, Copy)]
pub struct Query {
    pub order: Order,
    pub table: u32,
    pub measure: u8,
    pub d: usize,
    // [7.9] Unused slots are 0.
    pub probe: [i32; MOST_COORDINATES],
    pub reach: u64,
}

impl Query {
    // [5.14] What stands beside a refusal.
    pub const NONE: Query = Query {
        order: Order::Near,
        table: 0,
        measure: 0,
        d: 0,
        probe: [0i32; MOST_COORDINATES],
        reach: 0,
    };
}
