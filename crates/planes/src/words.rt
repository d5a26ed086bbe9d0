// Kept numbers as words.
ghost use Rattle.std.specs.Prelude.{◌≡◌};
ghost use Rattle.grounds.specs.Grounds.{is_kept};
ghost use Rattle.planes.specs.Sides.{word_of, FitsTypes};

use kept::Kept;

// The part of a kept number that an array holds. An enum and no closure, since definitions and contracts speak of a part.
#[derive(Clone, Copy)]
pub enum Part {
    Significand,
    Exponent,
}

#[tactic(auto, unfolding(crate::specs::Sides::word_of, crate::specs::Planes::pattern))]
pub(crate) fn word_of(part: Part, x: Kept) -> u32
    ensures { result ≡ word_of part x }
{
    match part {
        Part::Significand => x.significand,
        Part::Exponent => x.exponent.cast_unsigned(),
    }
}

// Whether a significand and an exponent are a kept number.
#[tactic(auto, unfolding(grounds::specs::Grounds::is_kept))]
pub(crate) fn is_kept(x: Kept) -> bool
    ensures test { result ≡ is_kept x }
    ensures fits { FitsTypes x }
{
    (x.significand >= 0x8000_0000) | ((x.significand == 0) & (x.exponent == 0))
}
