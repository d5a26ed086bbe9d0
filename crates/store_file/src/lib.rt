// A store on disk: writes the bytes of a store file, and reads them back. Any numbers and slices of any length may be given. A call
// answers, or refuses by the first ground that applies and leaves every slice that it could write to untouched.
//
// A file is the head, three numbers of four bytes, and then for the low side and for the high side the significands and the
// exponents of rows 0 to n, each of the four arrays in planes. Every number is little-endian.
#![tactic(auto)]

mod reading;
mod writing;

ghost use Rattle.std.specs.Prelude.{◌≡◌, IfOk};
ghost use Rattle.steps.specs.Inputs.{largest_pool};
ghost use Rattle.grounds.specs.Refusals.{refusal_number};
ghost use Rattle.grounds.specs.Grounds.{store_places, four_lengths, first_ground, file_form_grounds, FileFormAccepted};

use grounds::{Lengths, Refusal, store_places};
pub use reading::read;
use steps::{LARGEST_POOL, Pool};
pub use writing::write;

// The places of either side of a file that has the length which its head gives it, or the refusal of another.
#[tactic(auto, unfolding(steps::specs::Inputs::largest_pool), using(grounds::specs::Grounds::Laws::file_form_accepted))]
fn side_places(head: Pool, bytes: usize, lengths: Lengths) -> Result<usize, Refusal>
    ensures refusal { refusal_number result ≡ first_ground
        (file_form_grounds largest_pool head.assets head.probability head.correlation bytes (four_lengths lengths)) }
    ensures places { IfOk result (λ count. count ≡ store_places head.assets) }
    ensures accepted { IfOk result
        (λ count. FileFormAccepted largest_pool head.assets head.probability head.correlation bytes (four_lengths lengths)) }
{
    refusals::file_refusal(LARGEST_POOL, head, bytes, lengths)?;
    Ok(store_places(head.assets))
}
