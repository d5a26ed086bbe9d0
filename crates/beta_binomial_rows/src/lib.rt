// Row n of a pool by the beta-binomial model, for one side: each entry is a product of quotients.
#![tactic(auto)]

ghost use Rattle.std.specs.Prelude.{◌≡◌, suc, ◌≤◌, ◌<◌};
ghost use Rattle.model.specs.Fraction.{whole};
ghost use Rattle.model.specs.BetaBinomial.{quotient_numerator, quotient_denominator};
ghost use Rattle.steps.specs.BetaBinomial.{kept_quotient, kept_entry};
ghost use Rattle.steps.specs.Inputs.{largest_pool, InRange};
ghost use Rattle.working.specs.Working.{working_places, Entries};

use kept::{Kept, Side};
use model::WHOLE;
use steps::Pool;
use working::PLACES;

// A pool in range and below full correlation, where the first denominator is not 0.
#[derive(Clone, Copy)]
struct BetaPool {
    pool: Pool,
    ghost range: { InRange largest_pool pool.assets pool.probability pool.correlation },
    ghost below: { pool.correlation < whole },
}

impl BetaPool {
    // What quotient t of entry j is divided from, over 10,000².
    #[tactic(auto, unfolding(model::specs::Fraction::whole, model::specs::Fraction::complement), using(model::proofs::BetaBinomial::Theorems::default_factor, model::proofs::BetaBinomial::Theorems::survival_factor))]
    fn numerator(self, j: u32, t: u32) -> u64
        requires { t < 100 }
        ensures { result ≡ quotient_numerator self.pool.probability self.pool.correlation j t }
    {
        let pool = self.pool;
        let q = (WHOLE - pool.correlation) as u64;
        let correlation = pool.correlation as u64 * WHOLE as u64;
        if t < j {
            pool.probability as u64 * q + t as u64 * correlation
        } else {
            (WHOLE - pool.probability) as u64 * q + (t - j) as u64 * correlation
        }
    }

    // What it is divided by, over the same.
    #[tactic(auto, unfolding(model::specs::Fraction::whole, model::specs::Fraction::complement, model::specs::BetaBinomial::quotient_denominator))]
    fn denominator(self, t: u32) -> u64
        requires { t < 100 }
        ensures { result ≡ quotient_denominator self.pool.correlation t }
    {
        let q = (WHOLE - self.pool.correlation) as u64;
        WHOLE as u64 * (q + t as u64 * self.pool.correlation as u64)
    }

    // Quotient t of entry j, rounded once.
    #[tactic(auto, unfolding(steps::specs::BetaBinomial::kept_quotient), using(model::specs::BetaBinomial::quotient_denominator_positive, steps::proofs::BetaBinomial::Laws::quotient_digits))]
    fn quotient(self, j: u32, t: u32, side: Side) -> Kept
        requires { t < 100 }
        ensures { result ≡ kept_quotient side self.pool.probability self.pool.correlation j t }
    {
        Kept::from_ratio(self.numerator(j, t), self.denominator(t), side)
    }

    // Entry j: starting from one, its quotients are multiplied on.
    #[tactic(auto, unfolding(steps::specs::Inputs::largest_pool, steps::specs::BetaBinomial::kept_product, steps::specs::BetaBinomial::kept_entry))]
    fn entry(self, j: u32, side: Side) -> Kept
        requires { j ≤ self.pool.assets }
        ensures { result ≡ kept_entry side self.pool.assets self.pool.probability self.pool.correlation j }
    {
        let mut product = Kept::one();
        for t in 0..self.pool.assets {
            let factor = self.quotient(j, t, side);
            product = product.product(factor, side);
        }
        product
    }
}

// Entries 0 to n.
#[tactic(auto, unfolding(steps::specs::Inputs::largest_pool, steps::specs::Inputs::working_assets, working::specs::Working::working_places))]
pub fn row(pool: Pool, side: Side) -> [Kept; PLACES]
    requires range { InRange largest_pool pool.assets pool.probability pool.correlation }
    requires correlation { pool.correlation < whole }
    ensures { Entries working_places (suc pool.assets) result
        (kept_entry side pool.assets pool.probability pool.correlation) }
{
    let beta = BetaPool { pool };
    let mut row = [Kept::zero(); PLACES];
    // By index, which is the number of the entry too.
    for j in 0..=pool.assets {
        row[j as usize] = beta.entry(j, side);
    }
    row
}
