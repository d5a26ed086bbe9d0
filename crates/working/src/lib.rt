// The working row, and kept numbers in two slices.
#![tactic(auto)]

ghost use Rattle.std.specs.Prelude.{◌≡◌, suc, ◌+◌, replicate};
ghost use Rattle.kept.specs.Rounding.{nought};
ghost use Rattle.working.specs.Working.{working_places, Changed};
ghost use Rattle.working.specs.Slices.{number_at, with_number, HasPlaces, Readable};
ghost use Rattle.working.specs.Lent.{numbers, numbers_mut, SameSlices};

use kept::Kept;
use steps::WORKING_ASSETS;

// The places of a working row: one more than the assets that it has places for.
pub const PLACES: usize = WORKING_ASSETS as usize + 1;

// A working row of either side: the entries of row n, or the chances of a pool.
#[derive(Clone, Copy, Debug, PartialEq, Eq)]
pub struct BothSides {
    pub low: [Kept; PLACES],
    pub high: [Kept; PLACES],
}

// Kept numbers in two slices that are lent to be read.
#[derive(Clone, Copy)]
pub struct Numbers<'a> {
    pub significands: &'a [u32],
    pub exponents: &'a [i32],
}

// The same, lent to be written to.
#[derive(Drop)]
pub struct NumbersMut<'a> {
    pub significands: &'a mut [u32],
    pub exponents: &'a mut [i32],
}

impl<'a> Numbers<'a> {
    // The kept number at a place.
    pub fn at(&self, place: usize) -> Kept
        requires { HasPlaces (suc place) (numbers self.now) }
        ensures { result ≡ number_at (numbers self.now) place }
    {
        Kept {
            significand: self.significands[place],
            exponent: self.exponents[place],
        }
    }

    // A working row with so many entries from a place on, and zeros behind them.
    pub fn row(&self, count: usize, from: usize) -> [Kept; PLACES]
        requires { Readable count from (numbers self.now) }
        ensures { Changed working_places working_places count (replicate working_places nought) result
            (λ j. number_at (numbers self.now) (from + j)) }
    {
        let zero = Kept::zero();
        let mut row = [zero; PLACES];
        // By index, which is the place in the slices too.
        for j in 0..count {
            row[j] = self.at(from + j);
        }
        row
    }
}

impl NumbersMut<'_> {
    // Writes a kept number at a place.
    pub fn put(&mut self, place: usize, x: Kept)
        requires { HasPlaces (suc place) (numbers_mut self.old) }
        ensures same { SameSlices self.old self.new }
        ensures written { numbers_mut self.new ≡ with_number x place (numbers_mut self.old) }
    {
        self.significands[place] = x.significand;
        self.exponents[place] = x.exponent;
    }

    // The slices, to be read.
    pub fn shared(&self) -> Numbers<'_>
        ensures { numbers result ≡ numbers_mut self.now }
    {
        Numbers {
            significands: self.significands,
            exponents: self.exponents,
        }
    }
}
