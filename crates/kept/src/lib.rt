// Kept numbers: the arithmetic that every bound is made by. A method takes the side for which it works, so that one body
// serves both.
#![tactic(auto)]

ghost use Rattle.std.specs.Prelude.{◌≡◌, ◌<◌, ◌^◌};
ghost use Rattle.kept.specs.Rounding.{Operand, nought, unity, rounded_product, rounded_sum, rounded_quotient, of_integer, of_basis_points, of_ratio};

use model::WHOLE;

mod binary64;
mod rounding;
mod whole;

use rounding::{add, long_ratio, ratio, round_once};

// Which bound of an exact value a number is.
#[derive(Clone, Copy, Debug, PartialEq, Eq)]
pub enum Side {
    Low,
    High,
}

// A kept number: zero, written 0 × 2^0, or significand × 2^exponent with a significand from 2^31 to 2^32 − 1.
#[derive(Clone, Copy, Debug, PartialEq, Eq)]
pub struct Kept {
    pub significand: u32,
    pub exponent: i32,
}

// Each result is that of the exact step, rounded once to a kept number: on the low side the greatest that is not above it, on
// the high side the least that is not below it.
impl Kept {
    pub fn zero() -> Kept
        ensures { result ≡ nought }
    {
        Kept {
            significand: 0,
            exponent: 0,
        }
    }

    pub fn one() -> Kept
        ensures { result ≡ unity }
    {
        Kept {
            significand: 0x8000_0000,
            exponent: -31,
        }
    }

    // n, any whole number.
    pub fn from_integer(n: u64, side: Side) -> Kept
        ensures { result ≡ of_integer side n }
    {
        round_once(n, 0, 0, side)
    }

    // p / 10,000, any whole number of basis points.
    pub fn from_basis_points(p: u32, side: Side) -> Kept
        ensures { result ≡ of_basis_points side p }
    {
        ratio(p as u64, WHOLE, 0, side)
    }

    // n / m, any n, and m below 2^34.
    pub fn from_ratio(n: u64, m: u64, side: Side) -> Kept
        requires positive { 0 < m }
        requires few { m < 2 ^ 34 }
        ensures { result ≡ of_ratio side n m }
    {
        if m < 0x1_0000_0000 {
            ratio(n, m as u32, 0, side)
        } else {
            long_ratio(n, m, side)
        }
    }

    // self × other
    pub fn product(self, other: Kept, side: Side) -> Kept
        requires operand { Operand self }
        requires other { Operand other }
        ensures { result ≡ rounded_product side self other }
    {
        let v = self.significand as u64 * other.significand as u64;
        round_once(v, 0, self.exponent + other.exponent, side)
    }

    // self + other
    pub fn sum(self, other: Kept, side: Side) -> Kept
        requires operand { Operand self }
        requires other { Operand other }
        ensures { result ≡ rounded_sum side self other }
    {
        if self.significand == 0 {
            return other;
        }
        if other.significand == 0 {
            return self;
        }
        if self.exponent < other.exponent {
            add(other, self, side)
        } else {
            add(self, other, side)
        }
    }

    // self / divisor
    pub fn quotient(self, divisor: u32, side: Side) -> Kept
        requires operand { Operand self }
        requires positive { 0 < divisor }
        ensures { (above : 0 < divisor) → result ≡ rounded_quotient side self divisor above }
    {
        ratio(self.significand as u64, divisor, self.exponent, side)
    }
}
