// A table together with the memory that its caller lends, for calls that only read it.
ghost use Rattle.std.specs.Prelude.{◌≡◌, ℕ, ◌<◌, ◌^◌};
ghost use Rattle.paper.specs.Tree.{Store, lent, reference_at};

use crate::tables::Table;
use std::marker::Model;

// [3.2] A header, and the slices that hold its claims and nodes. What a call promises is said of the store that they make.
#[derive(Drop)]
pub struct LentTable<'a> {
    pub header: Table,
    pub references: &'a [u32],
    pub coordinates: &'a [i32],
    pub nodes: &'a [u64],
}

impl<'a> Model for LentTable<'a> {
    ghost Value = { Store };

    ghost view = { λ t. lent t.header t.references t.coordinates t.nodes };

    // [1.2] What a slice of references tells of each, for whoever sees the store alone.
    ghost invariant = { λ t. (k : ℕ) → reference_at t.references.now k < 2 ^ 32 };
}

impl<'a> LentTable<'a> {
    pub fn new(
        header: Table,
        references: &'a [u32],
        coordinates: &'a [i32],
        nodes: &'a [u64],
    ) -> LentTable<'a>
        ensures { result ≡ lent header references.entry coordinates.entry nodes.entry }
    {
        LentTable {
            header,
            references,
            coordinates,
            nodes,
        }
    }
}
