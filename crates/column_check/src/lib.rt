// Checks a column that another program printed: whether its rows can be right, and which is the first that cannot.
#![tactic(auto)]

ghost use Rattle.store.specs.Lent.{contents_mut, SameStore};
ghost use Rattle.column_check.specs.Answers.{verdict_in};
ghost use Rattle.column_check.specs.Calls.{Checks};

use pool::{Filled, Pool, Refusal, StoreMut};
use steps::LARGEST_POOL;
use store::fill_both;

// The first of rows 0 to n of the claimed column that fails, or none where all pass. What stands behind them is never looked at. The
// store is filled on the way.
pub fn check_column(
    pool: Pool,
    head: Pool,
    claims: &[u32],
    store: &mut StoreMut<'_>,
) -> Filled<Result<Option<u32>, Refusal>>
    ensures same { SameStore store.old store.new }
    ensures checks { Checks pool head
        claims.now
        (contents_mut store.old)
        (contents_mut store.new)
        (verdict_in result.answer)
        result.head }
{
    let lengths = store.lengths();
    if let Err(refusal) = refusals::column_refusal(LARGEST_POOL, pool, lengths, claims.len()) {
        let answer = Err(refusal);
        return Filled { answer, head };
    }
    let rows = fill_both(pool, store);
    let answer = Ok(claims::check_rows(pool.assets, rows, claims));
    Filled { answer, head: pool }
}
