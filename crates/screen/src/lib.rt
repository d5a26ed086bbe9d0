// A quote screen for small pools: column and tranche losses as the library gives them, for at most 20 assets. Any numbers and slices of
// any length may be given. A call answers, or refuses by the first ground that applies and leaves every slice untouched.
#![tactic(auto)]

ghost use Rattle.grounds.specs.Refusals.{refusal_number};
ghost use Rattle.store.specs.Lent.{contents_mut, SameStore};
ghost use Rattle.expected_losses.specs.Loss.{losses_in};
ghost use Rattle.screen.specs.Calls.{ScreenPrints, ScreenReplies};

use pool::{Answer, Filled, Pool, Refusal, StoreMut, TRANCHES, Tranche};
use steps::LARGEST_POOL;

// The most assets of a pool on the screen.
pub const SCREEN_POOL: u32 = 20;

// The column of the pool, as `pool::column` prints it. Refuses by 11 above 20 assets, directly after 1.
pub fn column(
    pool: Pool,
    head: Pool,
    store: &mut StoreMut<'_>,
    units: &mut [u32],
) -> Filled<Result<(), Refusal>>
    ensures same { SameStore store.old store.new }
    ensures prints { ScreenPrints pool head
        (contents_mut store.old)
        (contents_mut store.new)
        units.old
        units.new
        (refusal_number result.answer)
        result.head }
{
    let answer = refusals::screen_refusal(LARGEST_POOL, SCREEN_POOL, pool.assets);
    if answer.is_err() {
        return Filled { answer, head };
    }
    pool::column(pool, head, store, units)
}

// The expected losses of tranches of the pool, as `pool::tranche_losses` answers them. Refuses by 11 above 20 assets, directly after 1.
pub fn tranche_losses(
    pool: Pool,
    head: Pool,
    tranches: [Tranche; TRANCHES],
    count: u32,
    store: &mut StoreMut<'_>,
) -> Filled<Answer>
    ensures same { SameStore store.old store.new }
    ensures replies { ScreenReplies pool head tranches count
        (contents_mut store.old)
        (contents_mut store.new)
        (refusal_number result.answer.outcome)
        result.head
        (losses_in result.answer.losses) }
{
    let outcome = refusals::screen_refusal(LARGEST_POOL, SCREEN_POOL, pool.assets);
    if outcome.is_err() {
        let losses = expected_losses::untouched();
        let answer = Answer { outcome, losses };
        return Filled { answer, head };
    }
    pool::tranche_losses(pool, head, tranches, count, store)
}
