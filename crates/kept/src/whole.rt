// A kept number in whole numbers.
ghost use Rattle.std.specs.Prelude.{◌≡◌};
ghost use Rattle.model.specs.Fraction.{AtMost, integer, times};
ghost use Rattle.kept.specs.Rounding.{IsKept, value, increment};
ghost use Rattle.kept.specs.Whole.{whole_of};

use crate::{Kept, Side};

// One on the high side for any v but zero.
fn high_one(v: u64, side: Side) -> u64
    ensures { result ≡ increment side v }
{
    match side {
        Side::Low => 0,
        Side::High => if v == 0 { 0 } else { 1 },
    }
}

impl Kept {
    // m × self in whole numbers: rounded down on the low side, up on the high side. Rounded up, v / 2^k is (v − 1) / 2^k rounded
    // down and one more, unless it is zero. With 64 binary places or more it is below one.
    pub fn times_whole(self, m: u32, side: Side) -> u64
        requires kept { IsKept self }
        requires to_two { AtMost (value self) (integer 2) }
        ensures { result ≡ whole_of side (times (integer m) (value self)) }
    {
        let v = self.significand as u64 * m as u64;
        let one = high_one(v, side);
        if self.exponent < -63 {
            return one;
        }
        ((v - one) >> (0 - self.exponent) as u32) + one
    }
}
