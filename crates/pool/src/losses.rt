// Works out the expected losses of tranches.
ghost use Rattle.grounds.specs.Refusals.{refusal_number};
ghost use Rattle.steps.specs.Inputs.{distance_for};
ghost use Rattle.store.specs.Lent.{contents_mut, SameStore};
ghost use Rattle.expected_losses.specs.Loss.{losses_in};
ghost use Rattle.pool.specs.Calls.{loss_refusal, Replies};

use super::{Filled, Loss, Pool, Refusal, StoreMut, TRANCHES, Tranche};
use steps::LARGEST_POOL;
use store::fill_both;

// What a loss call answers: whether it is refused, and the losses of the tranches within its count, each at the place of its tranche. A
// place past the count is untouched, and so are all on a refusal: for the sake of these the losses stand beside the outcome and not in it.
#[derive(Clone, Copy)]
pub struct Answer {
    pub outcome: Result<(), Refusal>,
    pub losses: [Loss; TRANCHES],
}

// The expected losses of the first `count` tranches, each with its own recovery. The records past them are never looked at. The store
// is filled on the way.
pub fn tranche_losses(
    pool: Pool,
    head: Pool,
    tranches: [Tranche; TRANCHES],
    count: u32,
    store: &mut StoreMut<'_>,
) -> Filled<Answer>
    ensures same { SameStore store.old store.new }
    ensures replies { Replies loss_refusal distance_for pool head tranches count
        (contents_mut store.old)
        (contents_mut store.new)
        (refusal_number result.answer.outcome)
        result.head
        (losses_in result.answer.losses) }
{
    let outcome = refusals::loss_refusal(LARGEST_POOL, pool, tranches, count, store.lengths());
    if outcome.is_err() {
        let losses = expected_losses::untouched();
        let answer = Answer { outcome, losses };
        return Filled { answer, head };
    }
    let rows = fill_both(pool, store);
    let losses = expected_losses::tranche_losses(pool.assets, rows, tranches, count);
    let answer = Answer { outcome, losses };
    Filled { answer, head: pool }
}
