// Tables made by a generator. A coordinate is one of sixteen, and often one of few, so that ties are everywhere.
ghost use Rattle.std.specs.Prelude.{◌<◌, ◌≤◌, length};

use paper::lent::LentTable;
use paper::limits::MOST_COORDINATES;
use paper::tables::Table;
use std::array;

pub type Point = [i32; MOST_COORDINATES];

// What a table has room for.
pub const CLAIMS: usize = 48;

const COORDINATES: usize = MOST_COORDINATES * CLAIMS;

const NODES: usize = 6 * CLAIMS;

const VALUES: [i32; 16] = [
    0,
    1,
    -1,
    2,
    -2,
    3,
    5,
    -7,
    9,
    1000,
    -1000,
    65536,
    2147483647,
    -2147483648,
    2147483646,
    12,
];

// The generator: where it stands, and how many of the values coordinates are drawn from.
#[derive(Clone, Copy)]
pub struct Draws {
    state: u64,
    spread: u64,
    ghost some: { 0 < spread },
    ghost few: { spread ≤ 16 },
}

impl Draws {
    pub fn new(state: u64, spread: u64) -> Draws
        requires some { 0 < spread }
        requires few { spread ≤ 16 }
    {
        Draws { state, spread }
    }

    pub fn step(&mut self) {
        let x = self.state % 2147483648;
        self.state = (x * 1103515245 + 12345) % 2147483648;
    }

    // The number below n that the generator stands at.
    pub fn here(&self, n: u64) -> u64
        requires { 0 < n }
        ensures { result < n }
    {
        self.state / 65536 % n
    }

    // The next number below n.
    pub fn below(&mut self, n: u64) -> u64
        requires { 0 < n }
        ensures { result < n }
    {
        self.step();
        self.here(n)
    }

    fn coordinate(&mut self) -> i32 {
        VALUES[self.below(self.spread) as usize]
    }

    pub fn point(&mut self) -> Point {
        array::from_fn(|_| self.coordinate())
    }
}

// Claim k's reference: no other claim has it, and it is not the claim's number.
pub fn reference(k: usize) -> u32 {
    (k as u64 % 4294967296 * 2654435761 % 4294967296) as u32
}

// A table with the memory that it is lent.
#[derive(Drop)]
pub struct Lent {
    pub header: Table,
    pub references: [u32; CLAIMS],
    pub coordinates: [i32; COORDINATES],
    pub nodes: [u64; NODES],
}

impl Lent {
    pub fn table(&self) -> LentTable<'_> {
        LentTable::new(
            self.header,
            &self.references,
            &self.coordinates,
            &self.nodes,
        )
    }

    // A table of claims at the points, of which each has d coordinates.
    pub fn of(measure: u8, d: usize, points: &[Point]) -> Lent
        requires few { length points.now ≤ CLAIMS }
        requires some { 0 < d }
        requires narrow { d ≤ MOST_COORDINATES }
    {
        let n = points.len();
        let given: [u32; CLAIMS] = array::from_fn(reference);
        let mut laid = [0; COORDINATES];
        for (slot, point) in laid.chunks_exact_mut(d).zip(points) {
            slot.copy_from_slice(&point[..d]);
        }
        let empty = Table {
            number: 7,
            measure,
            d,
            capacity: CLAIMS,
            count: 0,
            used: 0,
        };
        let mut lent = Lent {
            header: empty,
            references: [0; CLAIMS],
            coordinates: [0; COORDINATES],
            nodes: [0; NODES],
        };
        let run = nearby::enter(
            empty,
            &mut lent.references,
            &mut lent.coordinates,
            &mut lent.nodes,
            &given[..n],
            &laid[..n * d],
        );
        lent.header = run.unwrap_or(empty);
        lent
    }
}
