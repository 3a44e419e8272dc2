// The measures as types: what is written for any metric is proved once, and compiled for each.
ghost use Rattle.std.specs.Prelude.{◌≡◌, ◌≤◌, ◌<◌, ◌^◌, ◌-ℤ◌, nat_abs};
ghost use Rattle.paper.specs.Points.{joined, weigh};
ghost use Rattle.paper.specs.declared.points.Measure.{Measure};
ghost use Rattle.paper.specs.declared.points.Measure.TheVariants.{CityBlock as Measure·CityBlock, Maximum as Measure·Maximum, Hamming as Measure·Hamming};

pub trait Metric {
    // The measure that it is.
    ghost measure: { Measure };

    // [1.5] [1.8] What one coordinate counts, at 32 bits, of which a vector holds four.
    fn weigh(x: i32, y: i32) -> u32
        ensures { result ≡ weigh measure x y };

    // What coordinates count together. Of up to eight it may take more than 32 bits.
    fn join(a: u64, b: u64) -> u64
        requires { joined measure a b < 2 ^ 64 }
        ensures { result ≡ joined measure a b };
}

// [1.5] |x - y|. A subtraction at 32 bits would overflow.
#[inline(always)]
pub fn gap(x: i32, y: i32) -> u32
    ensures { (result ≡ nat_abs (x -ℤ y)) × (result ≤ 4294967295) }
{
    x.abs_diff(y)
}

// [1.6]
pub struct CityBlock;

#[tactic(auto, unfolding(paper::specs::Points::weigh, paper::specs::Points::joined))]
impl Metric for CityBlock {
    ghost measure = { Measure·CityBlock };

    fn weigh(x: i32, y: i32) -> u32 {
        gap(x, y)
    }

    fn join(a: u64, b: u64) -> u64 {
        a + b
    }
}

// [1.7]
pub struct Maximum;

#[tactic(auto, unfolding(paper::specs::Points::weigh, paper::specs::Points::joined))]
impl Metric for Maximum {
    ghost measure = { Measure·Maximum };

    fn weigh(x: i32, y: i32) -> u32 {
        gap(x, y)
    }

    fn join(a: u64, b: u64) -> u64 {
        a.max(b)
    }
}

// [1.8]
pub struct Hamming;

#[tactic(auto, unfolding(paper::specs::Points::weigh, paper::specs::Points::joined))]
impl Metric for Hamming {
    ghost measure = { Measure·Hamming };

    fn weigh(x: i32, y: i32) -> u32 {
        u32::from(x != y)
    }

    fn join(a: u64, b: u64) -> u64 {
        a + b
    }
}

// [1.9] What is counted so far, and one coordinate more.
#[inline(always)]
pub fn counted<M: Metric>(sum: u64, x: i32, y: i32) -> u64
    requires { joined M.measure sum (weigh M.measure x y) < 2 ^ 64 }
    ensures { result ≡ joined M.measure sum (weigh M.measure x y) }
{
    M::join(sum, u64::from(M::weigh(x, y)))
}
