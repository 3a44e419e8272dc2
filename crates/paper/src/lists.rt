// A tablet's list. Its items lie in memory that the caller lends, three numbers for each.
use crate::limits::MOST_CLAIMS;
use crate::queries::Query;

// [7.1] [7.2] [7.3] What the list is opened for, and how far it has come. `started` stands beside its snapshot, as in C: a list whose parts disagree
// has to be representable, since it is refused with 2.
#[derive(Clone, Copy)]
pub struct List {
    pub query: Query,
    pub started: bool,
    pub snapshot: u64,
    // Items held.
    pub count: usize,
    pub complete: bool,
}

impl List {
    // [7.9] The largest snapshot, at the width of that field.
    pub const MOST_SNAPSHOT: u64 = MOST_CLAIMS as u64;
}
