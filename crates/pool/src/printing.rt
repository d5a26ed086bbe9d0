// Prints the column of a pool.
ghost use Rattle.grounds.specs.Refusals.{refusal_number};
ghost use Rattle.steps.specs.Inputs.{distance_for};
ghost use Rattle.store.specs.Lent.{contents_mut, SameStore};
ghost use Rattle.pool.specs.Calls.{column_refusal, Prints};

use super::{Filled, Pool, Refusal, StoreMut};
use steps::LARGEST_POOL;
use store::fill_both;

// Writes rows 0 to n of the column, each the difference of two printed tails, and nothing behind them. The store is filled on the
// way.
pub fn column(
    pool: Pool,
    head: Pool,
    store: &mut StoreMut<'_>,
    units: &mut [u32],
) -> Filled<Result<(), Refusal>>
    ensures same { SameStore store.old store.new }
    ensures prints { Prints column_refusal distance_for pool head
        (contents_mut store.old)
        (contents_mut store.new)
        units.old
        units.new
        (refusal_number result.answer)
        result.head }
{
    let answer = refusals::column_refusal(LARGEST_POOL, pool, store.lengths(), units.len());
    if answer.is_err() {
        return Filled { answer, head };
    }
    let rows = fill_both(pool, store);
    chances::tails::print_column(pool.assets, rows.low, units);
    Filled { answer, head: pool }
}
