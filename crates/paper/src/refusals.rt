// Why a call refuses, each by the number of its rule.
ghost use Rattle.std.specs.Prelude.{◌≡◌};
ghost use Rattle.paper.specs.Outcomes.{number_of};

use std::error::Error;
use std::fmt;

// Rule 8.N says when N is given. 4 is retired.
#[derive(Clone, Copy, Debug, PartialEq, Eq)]
pub enum Refusal {
    OutOfRange = 1,
    Unsound = 2,
    TableFull = 3,
    Coordinates = 5,
    PageSize = 6,
    Snapshot = 7,
    Mark = 8,
    NoLine = 9,
    Fields = 10,
    OtherTable = 11,
    RoomTooShort = 12,
    NotPresentAsk = 13,
    Page = 14,
    ListFull = 15,
    Complete = 16,
    KnownReference = 17,
}

impl Refusal {
    // The number, as lines and C have it.
    pub fn number(self) -> u8
        ensures { result ≡ number_of self }
    {
        self as u8
    }
}

impl fmt::Display for Refusal {
    fn fmt<W: fmt::Write>(&self, f: &mut fmt::Formatter<W>) -> fmt::Result {
        write!(f, "refused {}", self.number())
    }
}

impl Error for Refusal {}
