// The f64 of a kept number: its significand cast to an f64, then products by exact powers of two. Nothing is rounded.
ghost use Rattle.std.specs.Prelude.{◌≡◌};
ghost use Rattle.kept.specs.Rounding.{IsKept};
ghost use Rattle.kept.specs.Binary64.{below_shown, Shown, ShownExponent, Doublings, IsBinary64, scaled_by};

use crate::Kept;

// How many doublings lead from 2^−831 to 2^exponent.
fn doublings(exponent: i32) -> u32
    requires { ShownExponent exponent }
    ensures { Doublings exponent result }
{
    (exponent + 831) as u32
}

// x × power where a binary digit is one, x where it is zero.
fn scaled_by(x: f64, digit: u32, power: f64) -> f64
    ensures { result ≡ scaled_by x digit power }
{
    if digit == 1 { x * power } else { x }
}

impl Kept {
    // Whether the number is below 2^−800, the least that is shown as an f64.
    pub fn is_below_shown(self) -> bool
        requires { IsKept self }
        ensures { result ≡ below_shown self }
    {
        self.significand == 0 || self.exponent < -831
    }

    // The number as an f64, exactly.
    pub fn to_f64(self) -> f64
        requires { Shown self }
        ensures { IsBinary64 self result }
    {
        let n = doublings(self.exponent);
        let x = self.significand as f64 * 6.983507489299546e-251; // 2^−831
        let x = scaled_by(x, n / 512 % 2, 1.3407807929942597e154); // 2^512
        let x = scaled_by(x, n / 256 % 2, 1.157920892373162e77); // 2^256
        let x = scaled_by(x, n / 128 % 2, 3.402823669209385e38); // 2^128
        let x = scaled_by(x, n / 64 % 2, 18446744073709551616.0); // 2^64
        let x = scaled_by(x, n / 32 % 2, 4294967296.0); // 2^32
        let x = scaled_by(x, n / 16 % 2, 65536.0); // 2^16
        let x = scaled_by(x, n / 8 % 2, 256.0);
        let x = scaled_by(x, n / 4 % 2, 16.0);
        let x = scaled_by(x, n / 2 % 2, 4.0);
        scaled_by(x, n % 2, 2.0)
    }
}
