// Fills the store of chances.
ghost use Rattle.steps.specs.Inputs.{largest_pool, distance_for};
ghost use Rattle.grounds.specs.Refusals.{refusal_number};
ghost use Rattle.grounds.specs.Grounds.{FillAccepted};
ghost use Rattle.store.specs.Stores.{lengths};
ghost use Rattle.store.specs.Lent.{contents_mut, SameStore};
ghost use Rattle.store.specs.Filling.{FilledBoth};
ghost use Rattle.store.specs.Calls.{fill_refusal, Fills};

use super::{Filled, Pool, Refusal, StoreMut};
use kept::Side;
use steps::LARGEST_POOL;
use working::{BothSides, NumbersMut};

// Fills rows 0 to n of both sides, and hands back row n.
pub fn fill_both(pool: Pool, store: &mut StoreMut<'_>) -> BothSides
    requires { FillAccepted largest_pool pool.assets pool.probability pool.correlation (lengths (contents_mut store.old)) }
    ensures same { SameStore store.old store.new }
    ensures filled { FilledBoth pool (contents_mut store.old) (contents_mut store.new) result.low result.high }
{
    let mut low_numbers = NumbersMut {
        significands: &mut store.low_significands[..],
        exponents: &mut store.low_exponents[..],
    };
    let low = rows::fill_side(pool, Side::Low, &mut low_numbers);
    let mut high_numbers = NumbersMut {
        significands: &mut store.high_significands[..],
        exponents: &mut store.high_exponents[..],
    };
    let high = rows::fill_side(pool, Side::High, &mut high_numbers);
    BothSides { low, high }
}

// Fills the store with rows 0 to n, row k from place k(k+1)/2 on, and writes nothing behind them.
pub fn fill(pool: Pool, head: Pool, store: &mut StoreMut<'_>) -> Filled<Result<(), Refusal>>
    ensures same { SameStore store.old store.new }
    ensures fills { Fills (fill_refusal pool (contents_mut store.old)) distance_for pool head
        (contents_mut store.old)
        (contents_mut store.new)
        (refusal_number result.answer)
        result.head }
{
    let answer = refusals::fill_refusal(LARGEST_POOL, pool, store.lengths());
    if answer.is_err() {
        return Filled { answer, head };
    }
    fill_both(pool, store);
    Filled { answer, head: pool }
}
