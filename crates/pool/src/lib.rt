// The calls on a pool: fill a store of chances, read a row of it, print a column, work out the losses of tranches and that of a
// layer by number of defaults. Any numbers and slices of any length may be given. A call answers, or refuses by the first ground that
// applies and leaves every slice untouched.
#![tactic(auto)]

mod layers;
mod losses;
mod printing;

pub use expected_losses::{Bounds, Loss};
pub use layers::{layer_loss, loss_or_untouched};
pub use losses::{Answer, tranche_losses};
pub use printing::column;
pub use steps::{TRANCHES, Tranche};
pub use store::{Filled, Pool, Refusal, Store, StoreMut, fill, row, row_refusal};
