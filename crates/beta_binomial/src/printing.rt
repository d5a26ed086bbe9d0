// Prints the column of a pool.
ghost use Rattle.grounds.specs.Refusals.{refusal_number};
ghost use Rattle.beta_binomial.specs.Calls.{BetaPrints};

use beta_binomial_rows::row;
use kept::Side;
use pool::{Pool, Refusal};
use steps::LARGEST_POOL;

// Writes rows 0 to n of the column, each the difference of two printed tails, and nothing behind them. Refuses by 12 at full
// correlation, directly after 3.
pub fn column(pool: Pool, units: &mut [u32]) -> Result<(), Refusal>
    ensures { BetaPrints pool units.old units.new (refusal_number result) }
{
    refusals::beta_column_refusal(LARGEST_POOL, pool, units.len())?;
    let low = row(pool, Side::Low);
    chances::tails::print_column(pool.assets, low, units);
    Ok(())
}
