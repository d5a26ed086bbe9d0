// Works out the expected loss of a layer by number of defaults.
ghost use Rattle.std.specs.Prelude.{◌≡◌};
ghost use Rattle.grounds.specs.Refusals.{refusal_number};
ghost use Rattle.store.specs.Lent.{contents_mut, SameStore};
ghost use Rattle.expected_losses.specs.Loss.{loss_of};
ghost use Rattle.pool.specs.Answers.{loss_in};
ghost use Rattle.pool.specs.Calls.{LayerReplies};

use super::{Filled, Loss, Pool, Refusal, StoreMut};
use steps::LARGEST_POOL;
use store::fill_both;

// The expected loss of the layer from the i-th to the j-th default: the mean of the tails at i to j. The store is filled on the way.
pub fn layer_loss(
    pool: Pool,
    head: Pool,
    i: u32,
    j: u32,
    store: &mut StoreMut<'_>,
) -> Filled<Result<Loss, Refusal>>
    ensures same { SameStore store.old store.new }
    ensures replies { LayerReplies pool head i j
        (contents_mut store.old)
        (contents_mut store.new)
        (refusal_number result.answer)
        result.head
        (loss_of (loss_in result.answer)) }
{
    if let Err(refusal) = refusals::layer_refusal(LARGEST_POOL, pool, i, j, store.lengths()) {
        let answer = Err(refusal);
        return Filled { answer, head };
    }
    let rows = fill_both(pool, store);
    let answer = Ok(layer_losses::layer_loss(pool.assets, rows, i, j));
    Filled { answer, head: pool }
}

// The loss that the answer of a layer call stands for: a refusal has none, and stands for an untouched one.
pub fn loss_or_untouched(answer: Result<Loss, Refusal>) -> Loss
    ensures { result ≡ loss_in answer }
{
    answer.unwrap_or(Loss::Untouched)
}
