// Column and tranche losses of a pool by the beta-binomial model. Any numbers and slices of any length may be given; no store is lent.
// A call answers, or refuses by the number of the first ground that applies and leaves its slice untouched.
#![tactic(auto)]

mod losses;
mod printing;

pub use losses::tranche_losses;
pub use printing::column;
