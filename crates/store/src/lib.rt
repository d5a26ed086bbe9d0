// The store of chances, in four lent slices: fill it, read a row of it. A call answers, or refuses by the first ground that applies and
// leaves every slice untouched.
#![tactic(auto)]

mod filling;
mod reading;

ghost use Rattle.std.specs.Prelude.{◌≡◌};
ghost use Rattle.grounds.specs.Grounds.{four_lengths};
ghost use Rattle.working.specs.Lent.{numbers};
ghost use Rattle.store.specs.Stores.{lengths};
ghost use Rattle.store.specs.Lent.{contents, contents_mut};

pub use filling::{fill, fill_both};
use grounds::Lengths;
pub use grounds::Refusal;
pub use reading::{row, row_refusal};
pub use steps::Pool;
use working::Numbers;

// The four slices of a store, lent to be read: significands and exponents of the bounds on either side.
#[derive(Clone, Copy)]
pub struct Store<'a> {
    pub low_significands: &'a [u32],
    pub high_significands: &'a [u32],
    pub low_exponents: &'a [i32],
    pub high_exponents: &'a [i32],
}

// The same, lent to be written to.
#[derive(Drop)]
pub struct StoreMut<'a> {
    pub low_significands: &'a mut [u32],
    pub high_significands: &'a mut [u32],
    pub low_exponents: &'a mut [i32],
    pub high_exponents: &'a mut [i32],
}

// What a call that fills a store hands back: its answer, and the head of the store, which is the pool or, on a refusal, the head that
// came.
#[derive(Clone, Copy, Debug, PartialEq)]
pub struct Filled<A> {
    pub answer: A,
    pub head: Pool,
}

impl Store<'_> {
    #[tactic(auto, unfolding(crate::specs::Stores::store, crate::specs::Stores::lengths, grounds::specs::Grounds::four_lengths))]
    pub fn lengths(&self) -> Lengths
        ensures { four_lengths result ≡ lengths (contents self.now) }
    {
        Lengths {
            low_significands: self.low_significands.len(),
            high_significands: self.high_significands.len(),
            low_exponents: self.low_exponents.len(),
            high_exponents: self.high_exponents.len(),
        }
    }

    #[tactic(auto, unfolding(crate::specs::Stores::store))]
    pub fn low(&self) -> Numbers<'_>
        ensures { numbers result ≡ (contents self.now).low }
    {
        Numbers {
            significands: self.low_significands,
            exponents: self.low_exponents,
        }
    }

    #[tactic(auto, unfolding(crate::specs::Stores::store))]
    pub fn high(&self) -> Numbers<'_>
        ensures { numbers result ≡ (contents self.now).high }
    {
        Numbers {
            significands: self.high_significands,
            exponents: self.high_exponents,
        }
    }
}

impl StoreMut<'_> {
    // The slices, to be read.
    pub fn shared(&self) -> Store<'_>
        ensures { contents result ≡ contents_mut self.now }
    {
        Store {
            low_significands: self.low_significands,
            high_significands: self.high_significands,
            low_exponents: self.low_exponents,
            high_exponents: self.high_exponents,
        }
    }

    pub fn lengths(&self) -> Lengths
        ensures { four_lengths result ≡ lengths (contents_mut self.now) }
    {
        self.shared().lengths()
    }
}
