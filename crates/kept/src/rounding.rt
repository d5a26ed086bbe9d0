// The steps of rounding: what the methods of a kept number are made of.
ghost use Rattle.std.specs.Prelude.{◌≡◌, ◌*◌, ◌/◌, ◌≤◌, ◌<◌, ◌^◌, pos, ◌+ℤ◌, ◌-ℤ◌, ◌≤ℤ◌};
ghost use Rattle.model.specs.Fraction.{Fraction, plus, divided, integer};
ghost use Rattle.kept.specs.Rounding.{Normal, Reach, Operand, scaled, value, increment, round};
ghost use Rattle.kept.specs.Rounding.Leading.{Between, Carried};
ghost use Rattle.kept.specs.Rounding.Words.{shift_of, RoundedDigits};
ghost use Rattle.kept.specs.Rounding.Sums.{Gap};

use super::{Kept, Side};

// One on the high side where something was dropped: the number that is added there carries anything but zero to 2^35. It is a sum
// and no branch, since nothing foretells whether the last digits are all zero.
fn one_more(side: Side, dropped: u64) -> u64
    requires { dropped < 2 ^ 35 }
    ensures { result ≡ increment side dropped }
{
    let added: u64 = match side {
        Side::Low => 0,
        Side::High => 0x7_ffff_ffff,
    };
    (dropped + added) >> 35
}

// The exponent of a number that was shifted up.
fn lowered(exponent: i32, shift: u32) -> i32
    requires reach { Reach 2000000132 exponent }
    requires shift { shift ≤ 64 }
    ensures { result ≡ exponent -ℤ pos shift }
{
    exponent - shift as i32
}

// How far e is above f, or 32 where that is more.
fn gap(e: i32, f: i32) -> u32
    requires reach { Reach 1000000000 e }
    requires other { Reach 1000000000 f }
    requires order { f ≤ℤ e }
    ensures { Gap e f result }
{
    let d = (e - f) as u32;
    if d < 32 { d } else { 32 }
}

// The exponent that goes with a significand: one more for 2^32.
fn carried_exponent(significand: u64, exponent: i32) -> i32
    requires digits { significand ≤ 2 ^ 32 }
    requires reach { Reach 2000000200 exponent }
    ensures { result ≡ exponent +ℤ pos (significand / 2 ^ 32) }
{
    exponent + (significand >> 32) as i32
}

// A significand of 2^32 is halved, and the exponent one more: 2^31 is taken off there, and nothing below it. Zero keeps its exponent.
fn carried(significand: u64, exponent: i32) -> Kept
    requires digits { significand ≤ 2 ^ 32 }
    requires reach { Reach 2000000200 exponent }
    ensures { Carried significand exponent result }
{
    let top = significand >> 32;
    Kept {
        significand: (significand - (top << 31)) as u32,
        exponent: carried_exponent(significand, exponent),
    }
}

// How far a word is shifted up until its highest digit is set. Zero is not shifted.
fn headroom(v: u64) -> u32
    ensures { result ≡ shift_of v }
{
    u64::leading_zeros(v) % 64
}

fn shifted_up(v: u64) -> u64
    ensures { result ≡ v * 2 ^ shift_of v }
{
    v << headroom(v)
}

// Rounds once the number that is v × 2^exponent where rest is zero, and lies between that and (v + 1) × 2^exponent where rest is
// not. In the second case v has to have all 32 digits that stay. Of zero the exponent is left open.
fn round_digits(v: u64, rest: u64, exponent: i32, side: Side) -> Kept
    requires reach { Reach 2000000100 exponent }
    requires few { rest < 2 ^ 34 }
    requires leading { (0 < rest → 2 ^ 31 ≤ v) }
    ensures { RoundedDigits side v rest exponent result }
{
    let w = shifted_up(v);
    let dropped = w % 0x1_0000_0000 + rest;
    carried(
        (w >> 32) + one_more(side, dropped),
        lowered(exponent + 32, headroom(v)),
    )
}

// The same, with the exponent 0 for zero.
pub fn round_once(v: u64, rest: u64, exponent: i32, side: Side) -> Kept
    requires reach { Reach 2000000100 exponent }
    requires few { rest < 2 ^ 34 }
    requires leading { (0 < rest → 2 ^ 31 ≤ v) }
    ensures { (z : Fraction) → Between v rest exponent z → result ≡ round side z }
{
    let x = round_digits(v, rest, exponent, side);
    Kept {
        significand: x.significand,
        exponent: if x.significand == 0 { 0 } else { x.exponent },
    }
}

// n / m × 2^exponent rounded once.
pub fn ratio(n: u64, m: u32, exponent: i32, side: Side) -> Kept
    requires reach { Reach 1000000000 exponent }
    requires positive { 0 < m }
    ensures { (above : 0 < m) → result ≡ round side (divided (scaled n exponent) m above) }
{
    let w = shifted_up(n);
    let d = m as u64;
    round_once(w / d, w % d, lowered(exponent, headroom(n)), side)
}

// n / m rounded once by long division, for a divisor of up to 34 digits: the quotient has 30 digits or more, and the remainder
// gives two more.
pub fn long_ratio(n: u64, m: u64, side: Side) -> Kept
    requires least { 4 ≤ m }
    requires few { m < 2 ^ 34 }
    ensures { (above : 0 < m) → result ≡ round side (divided (integer n) m above) }
{
    let w = shifted_up(n);
    let left = (w % m) << 2;
    let v = ((w / m) << 2) + left / m;
    round_once(v, left % m, lowered(-2, headroom(n)), side)
}

// The sum of two numbers, the first above zero and with the larger exponent. A second one that lies 32 digits or more below the
// first is added as if it lay 32 digits below: it changes no leading digit, and only whether it is zero counts.
pub fn add(x: Kept, y: Kept, side: Side) -> Kept
    requires x { Operand x }
    requires y { Operand y }
    requires normal { Normal x.significand }
    requires order { y.exponent ≤ℤ x.exponent }
    ensures { result ≡ round side (plus (value x) (value y)) }
{
    let d = gap(x.exponent, y.exponent);
    let v = ((x.significand as u64) << d) + y.significand as u64;
    round_digits(v, 0, lowered(x.exponent, d), side)
}
