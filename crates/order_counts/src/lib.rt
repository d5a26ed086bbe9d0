// The counts of orders C(n,j), in kept numbers of one side: worked out exactly and rounded for few assets, and made by sums of kept
// numbers for more. Either way the rows of Pascal's triangle are made in place, since a copy of each would cost more than its sums.
#![tactic(auto)]

ghost use Rattle.std.specs.Prelude.{suc, ◌≤◌};
ghost use Rattle.steps.specs.Inputs.{working_assets};
ghost use Rattle.steps.specs.Counts.{exact_assets, kept_count};
ghost use Rattle.working.specs.Working.{working_places, Entries};
ghost use Rattle.order_counts.specs.Counts.{TakesLittle, RowsSummed, RowMade};

use kept::{Kept, Side};
use working::PLACES;

// The most assets whose counts are worked out exactly. Each fits a word of 64 bits.
const EXACT_ASSETS: u32 = 64;

// Row n of Pascal's triangle with any one and any sum, made from ones at both ends.
#[tactic(auto, unfolding(working::specs::Working::working_places, steps::specs::Inputs::working_assets))]
fn pascal<T: Copy, F: Fn(T, T) -> T>(n: u32, one: T, sum: F) -> [T; PLACES]
    requires working { n ≤ working_assets }
    requires little { TakesLittle T.row }
    requires sums { RowsSummed (F.pre sum) (F.post sum) one n }
    ensures { RowMade (F.post sum) one n result }
{
    let mut row = [one; PLACES];
    for k in 0..n as usize {
        let mut before = one;
        // By index: an entry is made of two neighbours, in place.
        for j in 1..k + 1 {
            let here = row[j];
            row[j] = sum(before, here);
            before = here;
        }
    }
    row
}

// C(n,0) to C(n,n), each rounded.
#[tactic(auto, unfolding(working::specs::Working::working_places, steps::specs::Inputs::working_assets))]
fn rounded_counts(n: u32, side: Side) -> [Kept; PLACES]
    requires exact { n ≤ exact_assets }
    requires working { n ≤ working_assets }
    ensures { Entries working_places (suc n) result (kept_count side n) }
{
    let exact = pascal(n, 1u64, |x, y| x + y);
    let mut counts = [Kept::zero(); PLACES];
    let places = n as usize + 1;
    // By index, which is the place in each array: an iterator would have to be counted beside it.
    for j in 0..places {
        counts[j] = Kept::from_integer(exact[j], side);
    }
    counts
}

// The counts of orders of 0 to n defaults among n assets.
pub fn counts(n: u32, side: Side) -> [Kept; PLACES]
    requires { n ≤ working_assets }
    ensures { Entries working_places (suc n) result (kept_count side n) }
{
    if n > EXACT_ASSETS {
        return pascal(n, Kept::one(), |x, y| x.sum(y, side));
    }
    rounded_counts(n, side)
}
