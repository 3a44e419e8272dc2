// What a walk looks for: any numbers, whatever question they are of.
ghost use Rattle.std.specs.Prelude.{◌+◌, ◌<◌, ◌≤◌};
ghost use Rattle.paper.specs.Limits.{most_page};

#[derive(Clone, Copy)]
pub struct Sought {
    // How many items are looked for.
    pub size: usize,
    // How many claims may be seen.
    pub snapshot: u64,
    // The first key wanted.
    pub low: u64,
    pub ghost some: { 0 < size },
    pub ghost few: { size ≤ most_page + 1 },
}
