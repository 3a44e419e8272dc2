// The references of a run, which may be of any length: a window of them at a time is indexed, and all others are looked up there.
ghost use Rattle.std.specs.Prelude.{◌≡◌, ℕ, ◌<◌, ◌≤◌, ◌++◌, length, take};
ghost use Rattle.paper.specs.Limits.{most_claims};
ghost use Rattle.paper.specs.References.{anew};
ghost use Rattle.tree_repeats.specs.NewReferences.{NewAt, Decides};

use super::index::{fill, lacks_all};
use paper::limits::MOST_CLAIMS;

// Whether the references of a window are new: they differ from each other, from those that are known, and from those behind the window.
fn window_is_new(known: &[u32], window: &[u32], behind: &[u32]) -> bool
    requires { length window.now ≤ most_claims }
    ensures { Decides ((i : ℕ) → i < length window.now → NewAt known.now (window.now ++ behind.now) i) result }
{
    let mut heads = [0u16; MOST_CLAIMS];
    let mut links = [0u16; MOST_CLAIMS];
    fill(&mut heads, &mut links, window)
        && lacks_all(&heads, &links, window, known)
        && lacks_all(&heads, &links, window, behind)
}

// [8.17] Whether the references of a run are new to the first n of the table, and none stands twice in the run.
pub fn are_new(references: &[u32], n: usize, given: &[u32]) -> bool
    requires { n ≤ length references.now }
    ensures { result ≡ anew (take n references.now) given.now }
{
    let known = &references[..n];
    let mut rest = given;
    // `chunks` would not give what lies behind a window.
    while !rest.is_empty() {
        let (window, behind) = rest.split_at(rest.len().min(MOST_CLAIMS));
        if !window_is_new(known, window, behind) {
            return false;
        }
        rest = behind;
    }
    true
}
