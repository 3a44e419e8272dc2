// Keeping the first so many keys, in order, in a room of the walk's own: those kept stand first, and the end behind them.
ghost use Rattle.std.specs.Prelude.{◌≡◌, ◌+◌, ◌-◌, ◌<◌, ◌≤◌, get_or};
ghost use Rattle.paper.specs.Limits.{most_page};
ghost use Rattle.walk_keep.specs.Kept.{Shifted, Pushed, KeepIs};

use crate::sought::Sought;
use paper::limits::MOST_PAGE;

// [4.7] Keys of the items that are looked for: those of a page, and one that tells whether the page is the last.
pub const KEYS: usize = MOST_PAGE + 1;

// The place of key y among the first n: it is behind the key in front, and not behind the one there.
fn position(room: &[u64; KEYS], n: usize, y: u64) -> usize
    requires { n ≤ most_page }
    ensures few { result ≤ n }
    ensures front { 0 < result → get_or room.now (result - 1) 0 < y }
    ensures behind { result < n → y ≤ get_or room.now result 0 }
{
    room[..n].iter().rposition(|x| *x < y).map_or(0, |i| i + 1)
}

// Moves the first n keys from p on up by one: the last falls out. With `copy_within`, which also asks which way to copy, a first page in the
// plane took 16,283 instructions in place of 12,621.
fn shift(room: &mut [u64; KEYS], p: usize, n: usize)
    requires { (p < n) × (n ≤ most_page + 1) }
    ensures { Shifted p n room.old room.new }
{
    for i in (p + 1..n).rev() {
        room[i] = room[i - 1];
    }
}

// Puts key y, which comes before the last of the first n, in its place among them: the last falls out. Where it is already, nothing changes.
fn push(room: &mut [u64; KEYS], n: usize, y: u64)
    requires { (0 < n) × (n ≤ most_page + 1) × (y < get_or room.old (n - 1) 0) }
    ensures { Pushed n y room.old room.new }
{
    let p = position(room, n - 1, y);
    if room[p] == y {
        return;
    }
    shift(room, p, n);
    room[p] = y;
}

impl Sought {
    // [2.5] [2.7] The step of claim k, at key y. In a room of one key there is no branch on y.
    pub fn keep(&self, room: &mut [u64; KEYS], k: u64, y: u64)
        ensures { KeepIs self.now k y room.old room.new }
    {
        if self.snapshot <= k {
            return;
        }
        if y < self.low {
            return;
        }
        if self.size == 1 {
            room[0] = y.min(room[0]);
            return;
        }
        if room[self.size - 1] <= y {
            return;
        }
        push(room, self.size, y);
    }

    // [4.12] The last key: what is still wanted comes before it.
    pub fn wanted(&self, room: &[u64; KEYS]) -> u64
        ensures { result ≡ get_or room.now (self.now.size - 1) 0 }
    {
        room[self.size - 1]
    }
}
