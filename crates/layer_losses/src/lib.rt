// The expected loss of the layer from the i-th to the j-th default, over any row of entries: the mean of the tails at i to j. Nothing
// here knows the model that a row comes from.
#![tactic(auto)]

ghost use Rattle.expected_losses.specs.Loss.{loss_of};
ghost use Rattle.layer_losses.specs.Layer.{MeanReady, MeanMade, BoundReady, BoundMade, LayerReady, LayerAnswered};

use chances::chances;
use chances::tails::{TAILS, tails};
use expected_losses::{Loss, loss_answer};
use kept::{Kept, Side};
use working::{BothSides, PLACES};

// The tails at i up to j, added and divided by their number.
#[tactic(auto, unfolding(steps::specs::Inputs::working_assets, steps::specs::Chances::kept_total))]
fn mean_tail(tails: [Kept; TAILS], i: u32, j: u32, side: Side) -> Kept
    requires { MeanReady side tails i j }
    ensures { MeanMade side tails i j result }
{
    let mut total = Kept::zero();
    for tail in &tails[i as usize..=j as usize] {
        total = total.sum(*tail, side);
    }
    total.quotient(j - i + 1, side)
}

// One bound of the layer, from row n of a side.
fn layer_bound(n: u32, row: [Kept; PLACES], i: u32, j: u32, side: Side) -> Kept
    requires { BoundReady side n row i j }
    ensures { BoundMade side n row i j result }
{
    let chances = chances(n, row, side);
    let tails = tails(n, chances, side);
    mean_tail(tails, i, j, side)
}

// The loss of the layer, from row n of either side.
pub fn layer_loss(n: u32, rows: BothSides, i: u32, j: u32) -> Loss
    requires { LayerReady n rows.low rows.high i j }
    ensures { LayerAnswered n rows.low rows.high i j (loss_of result) }
{
    loss_answer(
        layer_bound(n, rows.low, i, j, Side::Low),
        layer_bound(n, rows.high, i, j, Side::High),
    )
}
