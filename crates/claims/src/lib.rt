// Claimed rows of a column, held against the bounds of the chances, over any row of entries. Nothing here knows the model that a row
// comes from.
#![tactic(auto)]

ghost use Rattle.std.specs.Prelude.{◌≡◌};
ghost use Rattle.steps.specs.Claims.{passes};
ghost use Rattle.chances.specs.Chances.{Answerable};
ghost use Rattle.claims.specs.Check.{verdict_of, RowsReady, RowsChecked, CheckReady, Checked};

use chances::chances;
use kept::{Kept, Side};
use model::UNITS;
use working::BothSides;

// Whether some number between the two bounds, in units, is at most half a unit from the claim. In half units, 200,000 × low rounded up
// is at most 2 × claim + 1, and 2 × claim at most one more than 200,000 × high rounded down.
#[tactic(auto, unfolding(steps::specs::Column::units_of_certainty), using(chances::specs::Tails::Laws::halves_at_most))]
fn row_passes(low: Kept, high: Kept, claim: u32) -> bool
    requires { Answerable low high }
    ensures { result ≡ passes low high claim }
{
    let claimed = 2 * claim as u64;
    let least = low.times_whole(2 * UNITS, Side::High);
    let most = high.times_whole(2 * UNITS, Side::Low);
    least <= claimed + 1 && claimed <= most + 1
}

// The first of rows 0 to n of the claim that fails against the chances of either side.
#[tactic(auto, unfolding(steps::specs::Inputs::working_assets))]
fn first_to_fail(n: u32, chances: BothSides, claims: &[u32]) -> Option<u32>
    requires { RowsReady n chances.low chances.high claims.now }
    ensures { RowsChecked n chances.low chances.high claims.now (verdict_of result) }
{
    let rows = n as usize + 1;
    // By index: the same place of more than one array is read.
    for k in 0..rows {
        if !row_passes(chances.low[k], chances.high[k], claims[k]) {
            return Some(k as u32);
        }
    }
    None
}

// The first of the claimed rows that fails, from row n of either side.
pub fn check_rows(n: u32, rows: BothSides, claims: &[u32]) -> Option<u32>
    requires { CheckReady n rows.low rows.high claims.now }
    ensures { Checked n rows.low rows.high claims.now (verdict_of result) }
{
    let both = BothSides {
        low: chances(n, rows.low, Side::Low),
        high: chances(n, rows.high, Side::High),
    };
    first_to_fail(n, both, claims)
}
