// What goes to C and comes back: numbers, and structs of numbers. [9.19] A refusal's number stands beside the values, 0 where nothing was
// refused; where a case is not given its values are 0. A flag from C is off when it is 0 and on otherwise; a flag to C is 0 or 1.
// The structs are C's, so flags and refusals are numbers in them.
// This is a crate of its own so that wrong conversions are tried in seconds, apart from the exports.
#![tactic(auto)]

ghost use Rattle.std.specs.Prelude.{◌≡◌};
ghost use Rattle.paper.specs.Outcomes.{number, told};
ghost use Rattle.c_values.specs.Values.{table_out, item_out, filled_out, written_out, answered_out, place_of};

use checks::flag;
use paper::lines::Answered;
use paper::orders::{Item, Mark, Paged, Place};
use paper::refusals::Refusal;
use paper::tables::Table;

// A table after making or entering.
#[repr(C)]
#[derive(Clone, Copy)]
pub struct Tabled {
    pub refusal: u8,
    pub table: Table,
}

// What nearest and farthest found.
#[repr(C)]
#[derive(Clone, Copy, Default)]
pub struct FoundItem {
    pub refusal: u8,
    pub found: u8,
    pub number: u64,
    pub reference: u64,
    pub distance: u64,
}

// Where a page starts: at the start where `from` is 0, and otherwise after the mark, in the first `snapshot` claims.
#[repr(C)]
#[derive(Clone, Copy)]
pub struct Start {
    pub from: u8,
    pub snapshot: u64,
    pub distance: u64,
    pub number: u64,
}

// How many items stand at the front of the room, and whether they are the last.
#[repr(C)]
#[derive(Clone, Copy, Default)]
pub struct Filled {
    pub refusal: u8,
    pub last: u8,
    pub count: usize,
}

// The length of the line at the front of the output room.
#[repr(C)]
#[derive(Clone, Copy, Default)]
pub struct Written {
    pub refusal: u8,
    pub length: usize,
}

// [9.18] How far a call with many lines came.
#[repr(C)]
#[derive(Clone, Copy, Default)]
pub struct LinesAnswered {
    pub refusal: u8,
    pub lines: usize,
    pub used: usize,
    pub written: usize,
}

impl From<Result<Table, Refusal>> for Tabled {
    ghost from_gives = { λ r t. t ≡ table_out (told r) };

    fn from(made: Result<Table, Refusal>) -> Tabled {
        match made {
            Ok(table) => Tabled { refusal: 0, table },
            Err(why) => Tabled {
                refusal: why.number(),
                table: Table {
                    number: 0,
                    measure: 0,
                    d: 0,
                    capacity: 0,
                    count: 0,
                    used: 0,
                },
            },
        }
    }
}

impl From<Result<Option<Item>, Refusal>> for FoundItem {
    ghost from_gives = { λ r i. i ≡ item_out (told r) };

    fn from(answer: Result<Option<Item>, Refusal>) -> FoundItem {
        match answer {
            Ok(Some(a)) => FoundItem {
                refusal: 0,
                found: 1,
                number: a.number,
                reference: a.reference,
                distance: a.distance,
            },
            Ok(None) => FoundItem::default(),
            Err(why) => FoundItem {
                refusal: why.number(),
                ..FoundItem::default()
            },
        }
    }
}

impl From<Start> for Place {
    ghost from_gives = { λ s p. p ≡ place_of s };

    fn from(s: Start) -> Place {
        match s.from {
            0 => Place::Start,
            _ => Place::After(s.snapshot, Mark::at(s.distance, s.number)),
        }
    }
}

impl From<Result<Paged, Refusal>> for Filled {
    ghost from_gives = { λ r f. f ≡ filled_out (told r) };

    fn from(page: Result<Paged, Refusal>) -> Filled {
        match page {
            Ok(paged) => Filled {
                refusal: 0,
                last: flag(paged.last),
                count: paged.count,
            },
            Err(why) => Filled {
                refusal: why.number(),
                ..Filled::default()
            },
        }
    }
}

impl From<Result<usize, Refusal>> for Written {
    ghost from_gives = { λ r w. w ≡ written_out (told r) };

    fn from(wrote: Result<usize, Refusal>) -> Written {
        match wrote {
            Ok(n) => Written {
                refusal: 0,
                length: n,
            },
            Err(why) => Written {
                refusal: why.number(),
                ..Written::default()
            },
        }
    }
}

impl From<Result<Answered, Refusal>> for LinesAnswered {
    ghost from_gives = { λ r a. a ≡ answered_out (told r) };

    fn from(answered: Result<Answered, Refusal>) -> LinesAnswered {
        match answered {
            Ok(a) => LinesAnswered {
                refusal: 0,
                lines: a.lines,
                used: a.used,
                written: a.written,
            },
            Err(why) => LinesAnswered {
                refusal: why.number(),
                ..LinesAnswered::default()
            },
        }
    }
}

// [9.19] The number of a call's refusal, 0 where it refuses nothing.
pub fn refusal_number(outcome: Result<(), Refusal>) -> u8
    ensures { result ≡ number (told outcome) }
{
    match outcome {
        Ok(()) => 0,
        Err(why) => why.number(),
    }
}
