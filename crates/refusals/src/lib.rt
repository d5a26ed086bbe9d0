// The refusal of each call: the grounds that it checks, in their order. Each function gives the first that applies.
#![tactic(auto)]

ghost use Rattle.std.specs.Prelude.{◌≡◌, ◌≤◌, [], ◌∷◌};
ghost use Rattle.grounds.specs.Refusals.{number_of, refusal_number};
ghost use Rattle.grounds.specs.Grounds.{first_ground, four_lengths, assets_ground, screen_ground, file_length_ground};
ghost use Rattle.grounds.specs.Grounds.{fill_grounds, row_grounds, entries_grounds, column_grounds, shift_grounds, loss_grounds, layer_grounds, desk_grounds};
ghost use Rattle.grounds.specs.Grounds.{file_form_grounds, beta_pool_grounds, beta_column_grounds, beta_loss_grounds};

use grounds::{
    Lengths, Refusal, assets_refusal, ground, pool_refusal, slice_refusal, store_places,
    store_refusal, tranches_refusal,
};
use model::WHOLE;
use steps::{Pool, TRANCHES, Tranche};

// 1 and 11: what the quote screen, which has a limit of its own, checks first.
#[tactic(auto, unfolding(grounds::specs::Grounds::first_ground, grounds::specs::Grounds::assets_ground, grounds::specs::Grounds::screen_ground), using(grounds::specs::Grounds::Laws::first_last, grounds::proofs::Refusals::refused_first, grounds::proofs::Refusals::accepted_first))]
pub fn screen_refusal(most: u32, limit: u32, assets: u32) -> Result<(), Refusal>
    ensures { refusal_number result ≡ first_ground (assets_ground most assets ∷ screen_ground limit assets ∷ []) }
{
    assets_refusal(most, assets)?;
    ground(Refusal::ScreenAssets, assets > limit)
}

#[tactic(auto, unfolding(grounds::specs::Grounds::fill_grounds), using(grounds::proofs::Refusals::refused_append, grounds::proofs::Refusals::accepted_append))]
pub fn fill_refusal(most: u32, pool: Pool, lengths: Lengths) -> Result<(), Refusal>
    ensures { refusal_number result
        ≡ first_ground (fill_grounds most pool.assets pool.probability pool.correlation (four_lengths lengths)) }
{
    pool_refusal(most, pool)?;
    store_refusal(pool.assets, lengths)
}

#[tactic(auto, unfolding(grounds::specs::Grounds::first_ground, grounds::specs::Grounds::row_grounds, grounds::specs::Grounds::assets_ground, grounds::specs::Grounds::store_ground, grounds::specs::Grounds::row_ground, grounds::specs::Grounds::some_shorter), using(grounds::specs::Grounds::Laws::first_last, grounds::proofs::Refusals::refused_first, grounds::proofs::Refusals::accepted_first))]
pub fn row_refusal(most: u32, n: u32, k: u32, length: usize) -> Result<(), Refusal>
    ensures { refusal_number result ≡ first_ground (row_grounds most n k length) }
{
    assets_refusal(most, n)?;
    ground(Refusal::Store, length < store_places(n))?;
    ground(Refusal::Row, k > n)
}

// 1 to 3 and 7, then that of a slice beside the store.
#[tactic(auto, unfolding(grounds::specs::Grounds::entries_grounds), using(grounds::proofs::Refusals::refused_append, grounds::proofs::Refusals::accepted_append))]
fn entries_refusal(
    refusal: Refusal,
    most: u32,
    pool: Pool,
    lengths: Lengths,
    places: usize,
) -> Result<(), Refusal>
    ensures { refusal_number result ≡ first_ground
        (entries_grounds (number_of refusal) most pool.assets pool.probability pool.correlation (four_lengths lengths) places) }
{
    fill_refusal(most, pool, lengths)?;
    slice_refusal(refusal, pool.assets, places)
}

#[tactic(auto, unfolding(grounds::specs::Grounds::column_grounds))]
pub fn column_refusal(most: u32, pool: Pool, lengths: Lengths, units: usize) -> Result<(), Refusal>
    ensures { refusal_number result
        ≡ first_ground (column_grounds most pool.assets pool.probability pool.correlation (four_lengths lengths) units) }
{
    entries_refusal(Refusal::Column, most, pool, lengths, units)
}

#[tactic(auto, unfolding(grounds::specs::Grounds::shift_grounds))]
pub fn shift_refusal(most: u32, pool: Pool, lengths: Lengths, shifts: usize) -> Result<(), Refusal>
    ensures { refusal_number result
        ≡ first_ground (shift_grounds most pool.assets pool.probability pool.correlation (four_lengths lengths) shifts) }
{
    entries_refusal(Refusal::Shifts, most, pool, lengths, shifts)
}

#[tactic(auto, unfolding(grounds::specs::Grounds::loss_grounds), using(grounds::proofs::Refusals::refused_append, grounds::proofs::Refusals::accepted_append))]
pub fn loss_refusal(
    most: u32,
    pool: Pool,
    tranches: [Tranche; TRANCHES],
    count: u32,
    lengths: Lengths,
) -> Result<(), Refusal>
    ensures { refusal_number result ≡ first_ground
        (loss_grounds most pool.assets pool.probability pool.correlation tranches count (four_lengths lengths)) }
{
    pool_refusal(most, pool)?;
    tranches_refusal(tranches, count)?;
    store_refusal(pool.assets, lengths)
}

#[tactic(auto, unfolding(grounds::specs::Grounds::first_ground, grounds::specs::Grounds::layer_ground, grounds::specs::Grounds::layer_grounds), using(grounds::proofs::Refusals::refused_append, grounds::proofs::Refusals::accepted_append, grounds::specs::Grounds::Laws::first_last, grounds::proofs::Refusals::refused_first, grounds::proofs::Refusals::accepted_first))]
pub fn layer_refusal(most: u32, pool: Pool, i: u32, j: u32, lengths: Lengths) -> Result<(), Refusal>
    ensures { refusal_number result
        ≡ first_ground (layer_grounds most pool.assets pool.probability pool.correlation i j (four_lengths lengths)) }
{
    let n = pool.assets;
    pool_refusal(most, pool)?;
    ground(Refusal::Layer, (i == 0) | (i > j) | (j > n))?;
    store_refusal(n, lengths)
}

// 1 to 3 on the head of a store, 7, then 15 by the numbers that are expected of it, 9 and 16.
#[tactic(auto, unfolding(grounds::specs::Grounds::first_ground, grounds::specs::Grounds::expected_ground, grounds::specs::Grounds::row_ground, grounds::specs::Grounds::ceiling_ground, grounds::specs::Grounds::desk_grounds), using(grounds::proofs::Refusals::refused_append, grounds::proofs::Refusals::accepted_append, grounds::specs::Grounds::Laws::first_last, grounds::proofs::Refusals::refused_first, grounds::proofs::Refusals::accepted_first))]
pub fn desk_refusal(
    most: u32,
    head: Pool,
    expected_p: u32,
    expected_rho: u32,
    k: u32,
    ceiling: u32,
    lengths: Lengths,
) -> Result<(), Refusal>
    ensures { refusal_number result ≡ first_ground
        (desk_grounds most head.assets head.probability head.correlation expected_p expected_rho k ceiling (four_lengths lengths)) }
{
    let other = (head.probability != expected_p) | (head.correlation != expected_rho);
    fill_refusal(most, head, lengths)?;
    ground(Refusal::Head, other)?;
    ground(Refusal::Row, k > head.assets)?;
    ground(Refusal::Ceiling, k > ceiling)
}

// The bytes of a store file's head.
pub const FILE_HEAD: usize = 12;

// 17 of a file with a head that has not the length that its assets give it.
#[tactic(auto, unfolding(grounds::specs::Grounds::first_ground, grounds::specs::Grounds::file_length_ground), using(grounds::specs::Grounds::Laws::file_length, grounds::specs::Grounds::Laws::first_last))]
fn length_refusal(n: u32, bytes: usize) -> Result<(), Refusal>
    requires { 12 ≤ bytes }
    ensures { refusal_number result ≡ first_ground (file_length_ground n bytes ∷ []) }
{
    let rest = bytes - FILE_HEAD;
    let as_long = (rest / 16 == store_places(n)) & (rest % 16 == 0);
    ground(Refusal::FileLength, !as_long)
}

// 17 of a file of so many bytes that is too short for a head; 1 to 3 on a head, 17 of a file that has another length than the head
// gives it, and 7.
#[tactic(auto, unfolding(grounds::specs::Grounds::first_ground, grounds::specs::Grounds::short_file_ground, grounds::specs::Grounds::file_form_grounds), using(grounds::proofs::Refusals::refused_append, grounds::proofs::Refusals::accepted_append, grounds::specs::Grounds::Laws::first_last, grounds::proofs::Refusals::refused_first, grounds::proofs::Refusals::accepted_first))]
pub fn file_refusal(most: u32, head: Pool, bytes: usize, lengths: Lengths) -> Result<(), Refusal>
    ensures { refusal_number result ≡ first_ground
        (file_form_grounds most head.assets head.probability head.correlation bytes (four_lengths lengths)) }
{
    if bytes < FILE_HEAD {
        return Err(Refusal::FileLength);
    }
    pool_refusal(most, head)?;
    length_refusal(head.assets, bytes)?;
    store_refusal(head.assets, lengths)
}

// 1 to 3 and 12.
#[tactic(auto, unfolding(grounds::specs::Grounds::first_ground, grounds::specs::Grounds::beta_pool_grounds, grounds::specs::Grounds::full_correlation_ground, model::specs::Fraction::whole), using(grounds::proofs::Refusals::refused_append, grounds::proofs::Refusals::accepted_append, grounds::specs::Grounds::Laws::first_last, grounds::proofs::Refusals::refused_first, grounds::proofs::Refusals::accepted_first))]
fn beta_pool_refusal(most: u32, pool: Pool) -> Result<(), Refusal>
    ensures { refusal_number result ≡ first_ground (beta_pool_grounds most pool.assets pool.probability pool.correlation) }
{
    let rho = pool.correlation;
    pool_refusal(most, pool)?;
    ground(Refusal::FullCorrelation, rho == WHOLE)
}

#[tactic(auto, unfolding(grounds::specs::Grounds::beta_column_grounds), using(grounds::proofs::Refusals::refused_append, grounds::proofs::Refusals::accepted_append))]
pub fn beta_column_refusal(most: u32, pool: Pool, units: usize) -> Result<(), Refusal>
    ensures { refusal_number result ≡ first_ground (beta_column_grounds most pool.assets pool.probability pool.correlation units) }
{
    beta_pool_refusal(most, pool)?;
    slice_refusal(Refusal::Column, pool.assets, units)
}

#[tactic(auto, unfolding(grounds::specs::Grounds::beta_loss_grounds), using(grounds::proofs::Refusals::refused_append, grounds::proofs::Refusals::accepted_append))]
pub fn beta_loss_refusal(
    most: u32,
    pool: Pool,
    tranches: [Tranche; TRANCHES],
    count: u32,
) -> Result<(), Refusal>
    ensures { refusal_number result
        ≡ first_ground (beta_loss_grounds most pool.assets pool.probability pool.correlation tranches count) }
{
    beta_pool_refusal(most, pool)?;
    tranches_refusal(tranches, count)
}
