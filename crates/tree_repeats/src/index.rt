// An index of references by buckets. `heads` leads from a bucket to the last reference in it, `links` from each reference to the one before
// it in the same bucket, both by position plus one; 0 is none.
ghost use Rattle.std.specs.Prelude.{◌≡◌, true, ℕ, ◌+◌, ◌<◌, ◌≤◌, length};
ghost use Rattle.paper.specs.Tree.{reference_at};
ghost use Rattle.paper.specs.Limits.{most_claims};
ghost use Rattle.tree_repeats.specs.NewReferences.{Lacks, Differ, Decides};
ghost use Rattle.tree_repeats.specs.Index.{bucket_of, Indexed};

use paper::limits::MOST_CLAIMS;

// The bucket of a reference: bits 20 to 31 of its product with an odd number that has no pattern, so that references which follow each
// other, or are multiples of some number, spread.
#[tactic(auto, unfolding(crate::specs::Index::bucket_of))]
fn bucket(r: u32) -> usize
    ensures { (result ≡ bucket_of r) × (result < most_claims) }
{
    (u64::from(r) * 2654435761 / 1048576) as usize % MOST_CLAIMS
}

// Whether r is none of the references that are indexed.
fn lacks(heads: &[u16], links: &[u16], indexed: &[u32], r: u32) -> bool
    requires { Indexed heads.now links.now indexed.now (length indexed.now) }
    ensures { Decides (Lacks indexed.now r) result }
{
    let mut x = usize::from(heads[bucket(r)]);
    // No index is counted: each link leads to the next.
    while x != 0 {
        if indexed[x - 1] == r {
            return false;
        }
        x = usize::from(links[x - 1]);
    }
    true
}

// Whether each of the others is none of the references that are indexed.
pub fn lacks_all(heads: &[u16], links: &[u16], indexed: &[u32], others: &[u32]) -> bool
    requires { Indexed heads.now links.now indexed.now (length indexed.now) }
    ensures { Decides ((k : ℕ) → k < length others.now → Lacks indexed.now (reference_at others.now k)) result }
{
    others.iter().all(|r| lacks(heads, links, indexed, *r))
}

// Indexes reference i, behind the i before it.
fn put(heads: &mut [u16], links: &mut [u16], given: &[u32], i: usize)
    requires { Indexed heads.old links.old given.now i × ((i < length given.now) × ((i < length links.old) × (i < most_claims))) }
    ensures { Indexed heads.new links.new given.now (i + 1) }
{
    let b = bucket(given[i]);
    links[i] = heads[b];
    heads[b] = (i + 1) as u16;
}

// Indexes references, at most so many, as far as they differ, and gives whether they all do.
pub fn fill(heads: &mut [u16], links: &mut [u16], given: &[u32]) -> bool
    requires { Indexed heads.old links.old given.now 0 × ((length given.now ≤ length links.old) × (length given.now ≤ most_claims)) }
    ensures differ { Decides (Differ given.now) result }
    ensures indexed { result ≡ true → Indexed heads.new links.new given.now (length given.now) }
{
    for (i, r) in given.iter().enumerate() {
        if !lacks(heads, links, &given[..i], *r) {
            return false;
        }
        put(heads, links, given, i);
    }
    true
}
