// The row of a line's outcome.
ghost use Rattle.std.specs.Prelude.{◌≡◌, ◌+◌, ◌*◌, ◌≤◌, length};
ghost use Rattle.paper.specs.Outcomes.{number, told};
ghost use Rattle.nearby_batch.specs.Batch.{length_told, row_put};

use paper::refusals::Refusal;

// [6.6] Puts row k: the refusal's number or 0, and the answer line's length.
#[tactic(auto, unfolding(crate::specs::Batch::row_put))]
pub fn put_row(outcomes: &mut [u64], k: usize, wrote: Result<usize, Refusal>)
    requires { 2 * k + 2 ≤ length outcomes.old }
    ensures { outcomes.new ≡ row_put outcomes.old k (number (told wrote)) (length_told (told wrote)) }
{
    let i = 2 * k;
    outcomes[i] = match wrote {
        Ok(_) => 0,
        Err(why) => why.number() as u64,
    };
    outcomes[i + 1] = wrote.unwrap_or(0) as u64;
}
