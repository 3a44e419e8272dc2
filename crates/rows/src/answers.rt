// An answer as a row of numbers.
ghost use Rattle.std.specs.Prelude.{◌≡◌, ◌+◌, ◌*◌, ◌≤◌, length};
ghost use Rattle.std.proofs.lemmas.List.Edits.{sets};
ghost use Rattle.paper.specs.Outcomes.{told};
ghost use Rattle.rows.specs.Answers.{found_row, page_row};

use crate::numbers::put;
use checks::flag;
use paper::orders::{Item, Paged};
use paper::refusals::Refusal;

// [4.17] Row i: whether an item was found, and the item.
#[tactic(auto, unfolding(crate::specs::Answers::found_row))]
pub fn put_found(out: &mut [u64], i: usize, found: Option<Item>)
    requires { i * 4 + 4 ≤ length out.old }
    ensures { out.new ≡ sets out.old (i * 4) (found_row found) }
{
    match found {
        None => put(out, i * 4, [0; 4]),
        Some(a) => put(out, i * 4, [1, a.number, a.reference, a.distance]),
    }
}

// [4.19] Row i: the refusal, how many items, and whether they are the last.
#[tactic(auto, unfolding(crate::specs::Answers::page_row))]
pub fn put_page(outcomes: &mut [u64], i: usize, page: Result<Paged, Refusal>)
    requires { i * 3 + 3 ≤ length outcomes.old }
    ensures { outcomes.new ≡ sets outcomes.old (i * 3) (page_row (told page)) }
{
    match page {
        Err(why) => put(outcomes, i * 3, [why.number() as u64, 0, 0]),
        Ok(paged) => {
            let last = flag(paged.last) as u64;
            put(outcomes, i * 3, [0, paged.count as u64, last])
        }
    }
}
