// Where correlation moves the chances of a pool of at most 64 assets: the shift list. Any numbers and slices of any length may be
// given. The call answers, or refuses by the first ground that applies and leaves every slice untouched.
#![tactic(auto)]

mod differences;

ghost use Rattle.grounds.specs.Refusals.{refusal_number};
ghost use Rattle.store.specs.Lent.{contents_mut, SameStore};
ghost use Rattle.shift.specs.Calls.{ListsShifts};

use differences::print_shifts;
use kept::Side;
use pool::{Filled, Pool, Refusal, StoreMut};
use steps::REPORT_POOL;
use store::fill_both;

// Writes for k from 0 to n the printed tail at k less that of the same pool at correlation 0, and nothing behind them. The store is
// filled on the way, for the pool's own correlation.
pub fn shift_list(
    pool: Pool,
    head: Pool,
    store: &mut StoreMut<'_>,
    shifts: &mut [i32],
) -> Filled<Result<(), Refusal>>
    ensures same { SameStore store.old store.new }
    ensures lists { ListsShifts pool head
        (contents_mut store.old)
        (contents_mut store.new)
        shifts.old
        shifts.new
        (refusal_number result.answer)
        result.head }
{
    let answer = refusals::shift_refusal(REPORT_POOL, pool, store.lengths(), shifts.len());
    if answer.is_err() {
        return Filled { answer, head };
    }
    let rows = fill_both(pool, store);
    let uncorrelated = Pool {
        correlation: 0,
        ..pool
    };
    let base = rows::last_row(uncorrelated, Side::Low);
    print_shifts(pool.assets, rows.low, base, shifts);
    Filled { answer, head: pool }
}
