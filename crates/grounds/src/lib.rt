// The grounds on which a call says no. Each function gives the first that applies to the numbers it is given. The ground of the assets
// has the call's ceiling on them, and slices are given by their lengths.
#![tactic(auto)]

mod refusal;

ghost use Rattle.std.specs.Prelude.{◌≡◌, cond, [], ◌∷◌};
ghost use Rattle.model.specs.Number.{triangle};
ghost use Rattle.grounds.specs.Refusals.{number_of, refusal_number};
ghost use Rattle.grounds.specs.Grounds.{first_ground, store_places, four_lengths, assets_ground, store_ground, entries_ground};
ghost use Rattle.grounds.specs.Grounds.{pool_grounds, tranche_grounds, tranches_grounds, counted_grounds};

use model::WHOLE;
pub use refusal::Refusal;
use steps::{Pool, TRANCHES, Tranche};

// The lengths of the four slices of a store.
#[derive(Clone, Copy, Debug, PartialEq, Eq)]
pub struct Lengths {
    pub low_significands: usize,
    pub high_significands: usize,
    pub low_exponents: usize,
    pub high_exponents: usize,
}

// The refusal of one ground.
pub fn ground(refusal: Refusal, applies: bool) -> Result<(), Refusal>
    ensures { refusal_number result ≡ cond applies (number_of refusal) 0 }
{
    if applies { Err(refusal) } else { Ok(()) }
}

#[tactic(auto, unfolding(crate::specs::Grounds::first_ground, crate::specs::Grounds::assets_ground), using(crate::specs::Grounds::Laws::first_last))]
pub fn assets_refusal(most: u32, n: u32) -> Result<(), Refusal>
    ensures { refusal_number result ≡ first_ground (assets_ground most n ∷ []) }
{
    ground(Refusal::Assets, (n == 0) | (n > most))
}

#[tactic(auto, unfolding(crate::specs::Grounds::first_ground, crate::specs::Grounds::pool_grounds, crate::specs::Grounds::assets_ground, crate::specs::Grounds::probability_ground, crate::specs::Grounds::correlation_ground, model::specs::Fraction::whole), using(crate::specs::Grounds::Laws::first_last, crate::proofs::Refusals::refused_first, crate::proofs::Refusals::accepted_first))]
pub fn pool_refusal(most: u32, pool: Pool) -> Result<(), Refusal>
    ensures { refusal_number result ≡ first_ground (pool_grounds most pool.assets pool.probability pool.correlation) }
{
    assets_refusal(most, pool.assets)?;
    ground(Refusal::Probability, pool.probability > WHOLE)?;
    ground(Refusal::Correlation, pool.correlation > WHOLE)
}

#[tactic(auto, unfolding(crate::specs::Grounds::first_ground, crate::specs::Grounds::tranche_grounds, crate::specs::Grounds::recovery_ground, crate::specs::Grounds::upper_ground, crate::specs::Grounds::attachments_ground, model::specs::Fraction::whole), using(crate::specs::Grounds::Laws::first_last, crate::proofs::Refusals::refused_first, crate::proofs::Refusals::accepted_first))]
fn tranche_refusal(tranche: Tranche) -> Result<(), Refusal>
    ensures { refusal_number result ≡ first_ground (tranche_grounds tranche.recovery tranche.lower tranche.upper) }
{
    ground(Refusal::Recovery, tranche.recovery > WHOLE)?;
    ground(Refusal::UpperAttachment, tranche.upper > WHOLE)?;
    ground(Refusal::Attachments, !(tranche.lower < tranche.upper))
}

// Where row k of a store starts: the places of the rows before it. The product fits a word for every k.
#[tactic(auto, using(model::specs::Number::Laws::triangle_closed))]
pub fn row_start(k: u32) -> usize
    ensures { result ≡ triangle k }
{
    let k = k as usize;
    k * (k + 1) / 2
}

// The places of rows 0 to n.
#[tactic(auto, using(crate::specs::Grounds::Laws::start_word, crate::specs::Grounds::Laws::store_places_lem, model::specs::Number::Laws::triangle_closed))]
pub fn store_places(n: u32) -> usize
    ensures { result ≡ store_places n }
{
    row_start(n) + n as usize + 1
}

#[tactic(auto, unfolding(crate::specs::Grounds::first_ground, crate::specs::Grounds::store_ground, crate::specs::Grounds::four_lengths, crate::specs::Grounds::some_shorter), using(crate::specs::Grounds::Laws::first_last))]
pub fn store_refusal(n: u32, lengths: Lengths) -> Result<(), Refusal>
    ensures { refusal_number result ≡ first_ground (store_ground n (four_lengths lengths) ∷ []) }
{
    let places = store_places(n);
    let exponents = (lengths.low_exponents < places) | (lengths.high_exponents < places);
    let high = (lengths.high_significands < places) | exponents;
    ground(Refusal::Store, (lengths.low_significands < places) | high)
}

// That of a slice which has so many places for entries 0 to n.
#[tactic(auto, unfolding(crate::specs::Grounds::first_ground, crate::specs::Grounds::entries_ground), using(crate::specs::Grounds::Laws::first_last))]
pub fn slice_refusal(refusal: Refusal, n: u32, places: usize) -> Result<(), Refusal>
    ensures { refusal_number result ≡ first_ground (entries_ground (number_of refusal) n places ∷ []) }
{
    ground(refusal, places < n as usize + 1)
}

// 4 to 6 of tranches, one tranche after the other.
#[tactic(auto, using(crate::proofs::Refusals::next_refused, crate::proofs::Refusals::next_accepted, crate::specs::Grounds::Laws::tranches_done))]
fn each_tranche_refusal(tranches: &[Tranche]) -> Result<(), Refusal>
    ensures { refusal_number result ≡ first_ground (tranches_grounds tranches.now) }
{
    for tranche in tranches {
        tranche_refusal(*tranche)?;
    }
    Ok(())
}

// 13, and 4 to 6 of each tranche within the count.
#[tactic(auto, unfolding(crate::specs::Grounds::first_ground, crate::specs::Grounds::count_ground, crate::specs::Grounds::counted_grounds, steps::specs::Tranches::tranche_places), using(crate::specs::Grounds::Laws::first_last, crate::proofs::Refusals::refused_first, crate::proofs::Refusals::accepted_first))]
pub fn tranches_refusal(tranches: [Tranche; TRANCHES], count: u32) -> Result<(), Refusal>
    ensures { refusal_number result ≡ first_ground (counted_grounds tranches count) }
{
    let none_or_more = (count == 0) | (count > TRANCHES as u32);
    ground(Refusal::TrancheCount, none_or_more)?;
    each_tranche_refusal(&tranches[..count as usize])
}
