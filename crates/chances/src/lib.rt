// Steps 4 and 5, over any row of entries: chances, tails, the printed column. Nothing here knows the model that a row comes from.
#![tactic(auto)]

ghost use Rattle.chances.specs.Chances.{StepsReady, ChancesMade};

use kept::{Kept, Side};
use order_counts::counts;
use working::PLACES;

pub mod tails;

// The chances of 0 to n defaults in any order, from the entries of row n.
#[tactic(auto, unfolding(working::specs::Working::working_places, steps::specs::Inputs::working_assets))]
pub fn chances(n: u32, row: [Kept; PLACES], side: Side) -> [Kept; PLACES]
    requires { StepsReady side n row }
    ensures { ChancesMade side n row result }
{
    let orders = counts(n, side);
    let mut chances = [Kept::zero(); PLACES];
    let places = n as usize + 1;
    // By index, which is the place in each array: an iterator would have to be counted beside it.
    for j in 0..places {
        chances[j] = orders[j].product(row[j], side);
    }
    chances
}
