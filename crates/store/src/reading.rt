// Reads a row of a filled slice.
ghost use Rattle.std.specs.Prelude.{◌≡◌};
ghost use Rattle.grounds.specs.Refusals.{refusal_number};
ghost use Rattle.store.specs.Calls.{HandsRow, row_refusal};

use super::Refusal;
use steps::LARGEST_POOL;

// Row k of a slice of significands that a call for n assets has filled: the part of the caller's slice that holds it, k + 1
// entries. The part is empty on a refusal, and only then.
pub fn row(n: u32, k: u32, significands: &[u32]) -> &[u32]
    ensures { HandsRow n k significands.now result.now }
{
    if row_refusal(n, k, significands).is_err() {
        return &significands[0..0];
    }
    let first = grounds::row_start(k);
    let end = first + k as usize + 1;
    &significands[first..end]
}

// The refusal of `row` for the same inputs.
#[tactic(auto, unfolding(crate::specs::Calls::row_refusal, steps::specs::Inputs::largest_pool))]
pub fn row_refusal(n: u32, k: u32, significands: &[u32]) -> Result<(), Refusal>
    ensures { refusal_number result ≡ row_refusal n k significands.now }
{
    refusals::row_refusal(LARGEST_POOL, n, k, significands.len())
}
