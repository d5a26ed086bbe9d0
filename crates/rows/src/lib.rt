// The rows of a pool, for one side: steps 1 to 3.
#![tactic(auto, unfolding(steps::specs::Inputs::working_assets, working::specs::Working::working_places))]

ghost use Rattle.std.specs.Prelude.{◌≡◌, suc, ◌≤◌};
ghost use Rattle.model.specs.Fraction.{whole};
ghost use Rattle.steps.specs.CorrelatedBinomial.Rows.{kept_weight, kept_row};
ghost use Rattle.steps.specs.Inputs.{working_assets, InRange};
ghost use Rattle.working.specs.Working.{working_places, Entries};
ghost use Rattle.working.specs.Slices.{Stored};
ghost use Rattle.working.specs.Lent.{numbers, numbers_mut, SameSlices};
ghost use Rattle.rows.specs.Turns.{recurrence, Continuable, Continued, Weighable, Passable, Passed, Turnable, Turned};
ghost use Rattle.rows.specs.Filling.{Fillable, Filled};

use kept::{Kept, Side};
use model::WHOLE;
use steps::Pool;
use working::{Numbers, NumbersMut, PLACES};

// ρ and q = 1 − ρ, and the numbers p_(k+1) and m_(k+1) of step 2.
#[derive(Clone, Copy)]
struct Recurrence {
    correlation: Kept,
    q: Kept,
    conditional: Kept,
    joint: Kept,
}

impl Recurrence {
    // p_1 and m_1.
    #[tactic(auto, unfolding(model::specs::Fraction::whole, model::specs::Fraction::complement, steps::specs::CorrelatedBinomial::Rows::constant, steps::specs::CorrelatedBinomial::Rows::kept_conditional, steps::specs::CorrelatedBinomial::Rows::kept_joint, crate::specs::Turns::recurrence))]
    fn first(pool: Pool, side: Side) -> Recurrence
        requires { pool.correlation ≤ whole }
        ensures { result ≡ recurrence side pool.probability pool.correlation 0 }
    {
        let correlation = Kept::from_basis_points(pool.correlation, side);
        let q = Kept::from_basis_points(WHOLE - pool.correlation, side);
        let conditional = Kept::from_basis_points(pool.probability, side);
        Recurrence {
            correlation,
            q,
            conditional,
            joint: conditional,
        }
    }

    // p_(k+2) and m_(k+2).
    fn next(self, side: Side) -> Recurrence
        requires { Continuable side self }
        ensures { Continued side self result }
    {
        let conditional = self
            .conditional
            .product(self.q, side)
            .sum(self.correlation, side);
        let joint = self.joint.product(conditional, side);
        Recurrence {
            conditional,
            joint,
            ..self
        }
    }
}

// g_0 to g_(n−1), from the first place on.
#[tactic(auto, unfolding(model::specs::Fraction::whole))]
fn weights(pool: Pool, side: Side, numbers: &mut NumbersMut<'_>)
    requires { Weighable pool.assets pool.probability pool.correlation (numbers_mut numbers.old) }
    ensures same { SameSlices numbers.old numbers.new }
    ensures weights { Stored (kept_weight side pool.probability pool.correlation) pool.assets 0
        (numbers_mut numbers.old) (numbers_mut numbers.new) }
{
    let a = Kept::from_basis_points(WHOLE - pool.probability, side);
    let q = Kept::from_basis_points(WHOLE - pool.correlation, side);
    let mut power = Kept::one();
    // By index: the numbers of a side stand in two slices.
    for j in 0..pool.assets as usize {
        numbers.put(j, a.product(power, side));
        power = power.product(q, side);
    }
}

// Row k from a place on, after its passes 1 to k. A pass goes upward, so that entry j + 1 is still the old one when entry j is
// made.
fn passes(
    k: usize,
    from: usize,
    correlation: Kept,
    side: Side,
    rows: &Numbers<'_>,
) -> [Kept; PLACES]
    requires { Passable side k from correlation (numbers rows.now) }
    ensures { Passed side correlation k k from (numbers rows.now) result }
{
    let mut w = rows.row(k + 1, from);
    for s in 0..k {
        // By index: an entry is made of two neighbours.
        for j in 0..k - s {
            let x = w[j];
            let y = w[j + 1];
            w[j] = x.sum(correlation.product(y, side), side);
        }
    }
    w
}

// One turn of the table: row k stands from the place `from` on, and row k + 1 is written from the place `to` on.
fn turn(
    k: usize,
    from: usize,
    to: usize,
    step: Recurrence,
    side: Side,
    weights: &Numbers<'_>,
    rows: &mut NumbersMut<'_>,
)
    requires { Turnable side k from to step (numbers weights.now) (numbers_mut rows.old) }
    ensures same { SameSlices rows.old rows.new }
    ensures turned { Turned side k (suc (suc k)) from to step
        (numbers weights.now)
        (numbers_mut rows.old)
        (numbers_mut rows.new) }
{
    let w = passes(k, from, step.correlation, side, &rows.shared());
    let count = k + 1;
    // By index: the numbers of a side stand in two slices.
    for j in 0..count {
        let g = weights.at(j);
        rows.put(to + j, w[j].product(g, side));
    }
    rows.put(to + count, step.joint);
}

// Fills rows 0 to n of one side, and hands back row n.
pub fn fill_side(pool: Pool, side: Side, numbers: &mut NumbersMut<'_>) -> [Kept; PLACES]
    requires { Fillable pool.assets pool.probability pool.correlation (numbers_mut numbers.old) }
    ensures same { SameSlices numbers.old numbers.new }
    ensures filled { Filled side pool.assets pool.probability pool.correlation
        (numbers_mut numbers.old) (numbers_mut numbers.new) result }
{
    let count = pool.assets as usize;
    let mut weight_significands = [0u32; PLACES];
    let mut weight_exponents = [0i32; PLACES];
    let mut places = NumbersMut {
        significands: &mut weight_significands,
        exponents: &mut weight_exponents,
    };
    weights(pool, side, &mut places);
    let weights = places.shared();
    let mut step = Recurrence::first(pool, side);
    numbers.put(0, Kept::one());
    let mut at: usize = 0;
    for k in 0..count {
        let to = at + k + 1;
        turn(k, at, to, step, side, &weights, numbers);
        at = to;
        step = step.next(side);
    }
    numbers.shared().row(count + 1, at)
}

// Row n of one side, with no store: each row is written over the one before.
pub fn last_row(pool: Pool, side: Side) -> [Kept; PLACES]
    requires { InRange working_assets pool.assets pool.probability pool.correlation }
    ensures { Entries working_places (suc pool.assets) result
        (kept_row side pool.probability pool.correlation pool.assets) }
{
    let last = pool.assets as usize;
    let mut weight_significands = [0u32; PLACES];
    let mut weight_exponents = [0i32; PLACES];
    let mut places = NumbersMut {
        significands: &mut weight_significands,
        exponents: &mut weight_exponents,
    };
    weights(pool, side, &mut places);
    let weights = places.shared();
    let mut significands = [0u32; PLACES];
    let mut exponents = [0i32; PLACES];
    let mut numbers = NumbersMut {
        significands: &mut significands,
        exponents: &mut exponents,
    };
    let mut step = Recurrence::first(pool, side);
    numbers.put(0, Kept::one());
    for k in 0..last {
        turn(k, 0, 0, step, side, &weights, &mut numbers);
        step = step.next(side);
    }
    numbers.shared().row(last + 1, 0)
}
