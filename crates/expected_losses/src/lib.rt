// Step 6, over any row of entries: the expected losses of tranches, and the answers that their two bounds give. Nothing here knows the
// model that a row comes from.
#![tactic(auto)]

ghost use Rattle.std.specs.Prelude.{◌-◌, ◌*◌, ◌≡◌, ◌≤◌, ◌<◌, take, replicate};
ghost use Rattle.model.specs.Chances.{loss_units};
ghost use Rattle.kept.specs.Rounding.{IsKept};
ghost use Rattle.steps.specs.Inputs.{working_assets, TrancheInRange};
ghost use Rattle.steps.specs.Loss.{untouched, loss_answer, raised_to_shown};
ghost use Rattle.steps.specs.Tranches.{tranche_places};
ghost use Rattle.chances.specs.Chances.{Answerable};
ghost use Rattle.expected_losses.specs.Loss.{UnitsMade, LossReady, LossMade, loss_of, TrancheReady, TrancheAnswered, EachReady, EachAnswered, losses_in, TranchesReady, TranchesAnswered};

use chances::chances;
use kept::{Kept, Side};
use model::WHOLE;
use steps::{TRANCHES, Tranche};
use working::{BothSides, PLACES};

// The two bounds of a loss.
#[derive(Clone, Copy, Debug, PartialEq)]
pub struct Bounds {
    pub low: f64,
    pub high: f64,
}

// The expected loss of a tranche or of a layer. Untouched: it is zero. Faint: its low bound is below 2^−800; the number is the greater
// of the high bound and 2^−800. Shown: both bounds.
#[derive(Clone, Copy, Debug, PartialEq)]
pub enum Loss {
    Untouched,
    Faint(f64),
    Shown(Bounds),
}

// A tranche of a pool of so many assets, both in range.
#[derive(Clone, Copy)]
struct PoolTranche {
    assets: u32,
    tranche: Tranche,
    ghost working: { assets ≤ working_assets },
    ghost range: { TrancheInRange tranche.recovery tranche.lower tranche.upper },
}

impl PoolTranche {
    // Its width in loss units.
    #[tactic(auto, unfolding(steps::specs::Inputs::working_assets, model::specs::Fraction::whole))]
    fn width(self) -> u32
        ensures { result ≡ (self.tranche.upper - self.tranche.lower) * self.assets }
    {
        (self.tranche.upper - self.tranche.lower) * self.assets
    }

    // The loss units of so many defaults, in the order of Moody's formula: what is lost less the lower attachment, raised to zero, cut
    // to the width.
    #[tactic(auto, unfolding(model::specs::Fraction::whole, model::specs::Fraction::complement, steps::specs::Inputs::working_assets), using(crate::specs::Loss::Laws::basis_points_word, model::proofs::Chances::Laws::loss_units_whole))]
    fn loss_units(self, defaults: u32) -> u32
        requires { defaults ≤ self.assets }
        ensures { result ≡ loss_units self.assets self.tranche.recovery self.tranche.lower self.tranche.upper defaults }
    {
        let lost = defaults * (WHOLE - self.tranche.recovery);
        lost.saturating_sub(self.tranche.lower * self.assets)
            .min(self.width())
    }

    // The loss units of 0 to n defaults in kept numbers. Below 2^32 these are the same on either side.
    #[tactic(auto, unfolding(working::specs::Working::working_places, steps::specs::Inputs::working_assets))]
    fn kept_units(self) -> [Kept; PLACES]
        ensures { UnitsMade self.assets self.tranche result }
    {
        let mut kept = [Kept::zero(); PLACES];
        // By index, which is the number of defaults too.
        for x in 0..=self.assets {
            let units = self.loss_units(x);
            kept[x as usize] = Kept::from_integer(units as u64, Side::Low);
        }
        kept
    }

    // Chance times loss units, added for 0 to n defaults, divided by the width of the tranche.
    #[tactic(auto, unfolding(working::specs::Working::working_places, steps::specs::Inputs::working_assets, model::specs::Fraction::whole, steps::specs::Chances::kept_total), using(crate::specs::Loss::Laws::total_operand))]
    fn expected_loss(self, chances: [Kept; PLACES], units: [Kept; PLACES], side: Side) -> Kept
        requires ready { LossReady side self.assets chances self.tranche }
        requires units { UnitsMade self.assets self.tranche units }
        requires not_empty { 0 < self.assets }
        ensures { LossMade side self.assets chances self.tranche result }
    {
        let mut total = Kept::zero();
        let places = self.assets as usize + 1;
        // By index: the same place of more than one array is read.
        for x in 0..places {
            let term = chances[x].product(units[x], side);
            total = total.sum(term, side);
        }
        total.quotient(self.width(), side)
    }
}

// The greater of x and 2^−800.
#[tactic(auto, unfolding(steps::specs::Loss::raised_to_shown, steps::specs::Loss::kept_least_shown))]
fn raised(x: Kept) -> Kept
    requires { IsKept x }
    ensures { result ≡ raised_to_shown x }
{
    if x.is_below_shown() {
        Kept {
            significand: 0x8000_0000,
            exponent: -831,
        }
    } else {
        x
    }
}

// Untouched, faint or shown.
#[tactic(auto, unfolding(steps::specs::Loss::loss_answer, crate::specs::Loss::loss_of))]
pub fn loss_answer(low: Kept, high: Kept) -> Loss
    requires { Answerable low high }
    ensures { loss_of result ≡ loss_answer low high }
{
    if high.significand == 0 {
        return Loss::Untouched;
    }
    if low.is_below_shown() {
        return Loss::Faint(raised(high).to_f64());
    }
    Loss::Shown(Bounds {
        low: low.to_f64(),
        high: high.to_f64(),
    })
}

// The loss of a tranche, from the chances of either side.
fn tranche_loss(n: u32, chances: BothSides, tranche: Tranche) -> Loss
    requires { TrancheReady n chances.low chances.high tranche }
    ensures { TrancheAnswered n chances.low chances.high tranche (loss_of result) }
{
    let tranche = PoolTranche { assets: n, tranche };
    let units = tranche.kept_units();
    loss_answer(
        tranche.expected_loss(chances.low, units, Side::Low),
        tranche.expected_loss(chances.high, units, Side::High),
    )
}

// The losses of no tranche: untouched at every place.
#[tactic(auto, unfolding(crate::specs::Loss::losses_in, crate::specs::Loss::loss_of, steps::specs::Tranches::tranche_places))]
pub fn untouched() -> [Loss; TRANCHES]
    ensures { losses_in result ≡ replicate tranche_places untouched }
{
    [Loss::Untouched; TRANCHES]
}

// The losses of at most eight tranches, from the chances of either side.
#[tactic(auto, unfolding(steps::specs::Tranches::tranche_places))]
fn each_loss(n: u32, chances: BothSides, tranches: &[Tranche]) -> [Loss; TRANCHES]
    requires { EachReady n chances.low chances.high tranches.now }
    ensures { EachAnswered n chances.low chances.high tranches.now (losses_in result) }
{
    let mut losses = untouched();
    for (i, tranche) in tranches.iter().enumerate() {
        losses[i] = tranche_loss(n, chances, *tranche);
    }
    losses
}

// The losses of the first so many tranches, each at the place of its tranche, from row n of either side. A place past the count is
// untouched. The chances are worked out once for all tranches.
#[tactic(auto, unfolding(steps::specs::Tranches::tranche_places))]
pub fn tranche_losses(
    n: u32,
    rows: BothSides,
    tranches: [Tranche; TRANCHES],
    count: u32,
) -> [Loss; TRANCHES]
    requires { TranchesReady n rows.low rows.high tranches count }
    ensures { TranchesAnswered n rows.low rows.high (take count tranches) (losses_in result) }
{
    let both = BothSides {
        low: chances(n, rows.low, Side::Low),
        high: chances(n, rows.high, Side::High),
    };
    each_loss(n, both, &tranches[..count as usize])
}
