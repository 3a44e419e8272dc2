// The limits of the rules, each under one name; what follows from another is computed from it. `specs/Limits.antt` has the same
// names, and contracts tie the two: code that tests one of these promises a definition that cites the other.

// [1.3] [3.1] [4.3] Coordinates of a point, claims of a table, items of a page.
pub const MOST_COORDINATES: usize = 8;

pub const MOST_CLAIMS: usize = 4096;

pub const MOST_PAGE: usize = 16;

// [5.9] The largest number of a claim, at the width that items have.
pub const MOST_NUMBER: u64 = MOST_CLAIMS as u64 - 1;

// Numbers of a page's items.
pub const ITEM_ROOM: usize = 3 * MOST_PAGE;

// [4.7] Numbers of the items that are looked for: those of a page, and one that tells whether the page is the last.
pub const SCRATCH_ITEMS: usize = 3 * (MOST_PAGE + 1);

// Numbers of the nodes that a table is built into once more when it is tested.
pub const SCRATCH_NODES: usize = 6 * MOST_CLAIMS;

// [5.11] Bytes of the longest frame, an answer's; characters of the longest line of each kind, two for each byte and one for its end.
pub const LONGEST_FRAME: usize = 30 + 4 * MOST_COORDINATES + 14 * MOST_PAGE;

pub const LONGEST_ANSWER: usize = 2 * LONGEST_FRAME + 1;

pub const LONGEST_ASK: usize = 2 * (29 + 4 * MOST_COORDINATES) + 1;

pub const LONGEST_CLAIM: usize = 2 * (11 + 4 * MOST_COORDINATES) + 1;

// [10.1] The office program's table.
pub const OFFICE_CLAIMS: usize = 1024;

pub const OFFICE_COORDINATES: usize = MOST_COORDINATES * OFFICE_CLAIMS;

pub const OFFICE_NODES: usize = 6 * OFFICE_CLAIMS;
