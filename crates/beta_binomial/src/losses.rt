// Works out the expected losses of tranches.
ghost use Rattle.grounds.specs.Refusals.{refusal_number};
ghost use Rattle.expected_losses.specs.Loss.{losses_in};
ghost use Rattle.beta_binomial.specs.Calls.{BetaReplies};

use beta_binomial_rows::row;
use kept::Side;
use pool::{Answer, Pool, TRANCHES, Tranche};
use steps::LARGEST_POOL;
use working::BothSides;

// The expected losses of the first `count` tranches, each with its own recovery. The records past them are never looked at. Refuses by
// 12 at full correlation, directly after 3.
pub fn tranche_losses(pool: Pool, tranches: [Tranche; TRANCHES], count: u32) -> Answer
    ensures { BetaReplies pool tranches count (refusal_number result.outcome) (losses_in result.losses) }
{
    let outcome = refusals::beta_loss_refusal(LARGEST_POOL, pool, tranches, count);
    if outcome.is_err() {
        let losses = expected_losses::untouched();
        return Answer { outcome, losses };
    }
    let low = row(pool, Side::Low);
    let high = row(pool, Side::High);
    let rows = BothSides { low, high };
    let losses = expected_losses::tranche_losses(pool.assets, rows, tranches, count);
    Answer { outcome, losses }
}
