// The measures: their numbers, and their greatest distances.
ghost use Rattle.std.specs.Prelude.{◌≡◌, ◌≤◌};
ghost use Rattle.paper.specs.Points.{measure_of, greatest_of};
ghost use Rattle.paper.specs.Limits.{most_coordinates};

#[derive(Clone, Copy)]
pub enum Measure {
    CityBlock,
    Maximum,
    Hamming,
}

impl Measure {
    // [1.5] The numbers that name a measure in tables and lines.
    pub const FIRST: u8 = 1;

    pub const LAST: u8 = 3;

    // [1.5] The widest gap between two coordinates, from -2,147,483,648 to 2,147,483,647.
    pub const WIDEST: u64 = 4294967295;

    // [1.5] The measure that a number names. What is out of range is refused before anyone asks.
    #[tactic(auto, unfolding(crate::specs::Points::measure_of))]
    pub fn numbered(n: u8) -> Measure
        ensures { result ≡ measure_of n }
    {
        match n {
            1 => Measure::CityBlock,
            2 => Measure::Maximum,
            _ => Measure::Hamming,
        }
    }

    // [1.9] The largest distance between two points of d coordinates.
    #[tactic(auto, unfolding(crate::specs::Points::greatest_of))]
    pub fn greatest(self, d: u64) -> u64
        requires { d ≤ most_coordinates }
        ensures { result ≡ greatest_of self d }
    {
        match self {
            Measure::CityBlock => d * Measure::WIDEST,
            Measure::Maximum => Measure::WIDEST,
            Measure::Hamming => d,
        }
    }
}
