// The arrays that stores are lent from.
use grounds::Lengths;
use pool::{Store, StoreMut};
use trial_lines::LARGE_PLACES;
use trial_support::{first, first_mut};

// More places than a store of 100 assets takes. The slices that are lent are the first places of the arrays, so that a write behind
// them is seen.
#[derive(Clone, Copy, Debug, PartialEq, Eq)]
pub struct Arrays {
    pub low_significands: [u32; LARGE_PLACES],
    pub high_significands: [u32; LARGE_PLACES],
    pub low_exponents: [i32; LARGE_PLACES],
    pub high_exponents: [i32; LARGE_PLACES],
}

impl Arrays {
    pub fn filled_with(significand: u32, exponent: i32) -> Arrays {
        Arrays {
            low_significands: [significand; LARGE_PLACES],
            high_significands: [significand; LARGE_PLACES],
            low_exponents: [exponent; LARGE_PLACES],
            high_exponents: [exponent; LARGE_PLACES],
        }
    }

    pub fn lent(&self, lengths: Lengths) -> Store<'_> {
        Store {
            low_significands: first(&self.low_significands, lengths.low_significands),
            high_significands: first(&self.high_significands, lengths.high_significands),
            low_exponents: first(&self.low_exponents, lengths.low_exponents),
            high_exponents: first(&self.high_exponents, lengths.high_exponents),
        }
    }

    pub fn lent_mut(&mut self, lengths: Lengths) -> StoreMut<'_> {
        let Arrays {
            low_significands,
            high_significands,
            low_exponents,
            high_exponents,
        } = self;
        StoreMut {
            low_significands: first_mut(low_significands, lengths.low_significands),
            high_significands: first_mut(high_significands, lengths.high_significands),
            low_exponents: first_mut(low_exponents, lengths.low_exponents),
            high_exponents: first_mut(high_exponents, lengths.high_exponents),
        }
    }
}
