// Asks, answers and claims as values: what readers give, and what writers answer.
use crate::limits::{ITEM_ROOM, MOST_CLAIMS, MOST_COORDINATES};
use crate::queries::Query;

// [5.5] What an ask and an answer have behind the reach: distance and number are the mark. Flags and measures of lines stay numbers: a caller
// can hand any byte to a writer, and what is out of range is refused with 10.
#[derive(Clone, Copy)]
pub struct Scope {
    pub from: u8,
    pub snapshot: u16,
    pub distance: u64,
    pub number: u16,
}

impl Scope {
    // [5.9] The largest snapshot and number, at the widths of these fields.
    pub const MOST_SNAPSHOT: u16 = MOST_CLAIMS as u16;

    pub const MOST_NUMBER: u16 = MOST_CLAIMS as u16 - 1;

    // [5.14] What stands beside a refusal.
    pub const NONE: Scope = Scope {
        from: 0,
        snapshot: 0,
        distance: 0,
        number: 0,
    };
}

// [5.5] What an ask line says.
#[derive(Clone, Copy)]
pub struct Ask {
    pub query: Query,
    pub scope: Scope,
    pub size: u8,
}

// [5.6] [5.14] What an answer line says. The items are triples of number, reference and distance; slots that are not in use hold 0, here
// as in a probe. The query, which ends in a whole word, stands before the items: with a gap there, a reader holds them twice.
#[derive(Clone, Copy)]
pub struct Answer {
    pub last: u8,
    pub count: u8,
    pub scope: Scope,
    pub query: Query,
    pub items: [u64; ITEM_ROOM],
}

#[repr(C)]
#[derive(Clone, Copy)]
pub struct ClaimLine {
    pub table: u32,
    pub measure: u8,
    pub d: u8,
    pub reference: u32,
    pub coordinates: [i32; MOST_COORDINATES],
}

impl ClaimLine {
    // [5.7] The kind of a claim line.
    pub const KIND: u8 = 3;
}

// [6.7] [9.18] How many lines were answered, how many characters of the asks they used, and how many characters of answers were
// written.
#[derive(Clone, Copy)]
pub struct Answered {
    pub lines: usize,
    pub used: usize,
    pub written: usize,
}
