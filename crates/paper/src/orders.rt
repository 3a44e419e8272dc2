// Orders, marks and places, and what questions give.
ghost use Rattle.std.specs.Prelude.{◌≡◌};
ghost use Rattle.paper.specs.Orders.{start_mark, mark_at};
ghost use Rattle.paper.specs.Orders.{rank as Orders·rank, before as Orders·before};

// [2.1] [2.2] Near order is smaller distances first, far order larger ones.
#[derive(Clone, Copy, PartialEq, Eq)]
pub enum Order {
    Near,
    Far,
}

impl Order {
    // [2.1] [2.2] The order's rank of a distance. Far order turns the distances round.
    #[tactic(auto, unfolding(crate::specs::Orders::rank))]
    pub fn rank(self, x: u64) -> u64
        ensures { result ≡ Orders·rank self x }
    {
        match self {
            Order::Near => x,
            Order::Far => 0xffff_ffff_ffff_ffff - x,
        }
    }

    // [2.3] Whether distance x and number k come before distance y and number j. Every call on a list tests each of its items so, and tuples
    // compared take more instructions; behind the first test `<=` tells that the ranks are equal, in fewer than `==`.
    #[tactic(auto, unfolding(crate::specs::Orders::before))]
    pub fn before(self, x: u64, k: u64, y: u64, j: u64) -> bool
        ensures { result ≡ Orders·before self x k y j }
    {
        let (a, b) = (self.rank(x), self.rank(y));
        a < b || (a <= b && k < j)
    }
}

// The last claim that a page before has shown: its distance from the probe, with its number.
#[derive(Clone, Copy, PartialEq, Eq)]
pub struct Mark {
    pub distance: u64,
    pub number: u64,
}

impl Mark {
    // [2.8] The fixed value that stands where no mark applies.
    pub const START: Mark = Mark {
        distance: 0,
        number: 0,
    };

    pub fn at(distance: u64, number: u64) -> Mark
        ensures { result ≡ mark_at distance number }
    {
        Mark { distance, number }
    }

    pub fn start() -> Mark
        ensures { result ≡ start_mark }
    {
        Mark::START
    }
}

// [4.4] [4.5] Where a page starts: at the start, or after a mark in the first so many claims. An `Option` of the two would not say so where it is
// matched.
#[derive(Clone, Copy, PartialEq, Eq)]
pub enum Place {
    Start,
    After(u64, Mark),
}

// [4.7] What a page call gives beside the room's filled front: how many items stand there, and whether the page is the last.
#[derive(Clone, Copy)]
pub struct Paged {
    pub count: usize,
    pub last: bool,
}

// [2.6] What an item shows of a claim.
#[derive(Clone, Copy, PartialEq, Eq)]
pub struct Item {
    pub number: u64,
    pub reference: u64,
    pub distance: u64,
}
