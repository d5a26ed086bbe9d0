// Runs the methods of kept numbers on edge values and on random ones, and prints a line for each case: the method, what it
// was given, then the result on the low side and on the high side. tools/trial_kept.py works the same lines out exactly.
#![tactic(auto)]

ghost use Rattle.std.specs.Prelude.{◌<◌, ◌^◌};
ghost use Rattle.kept.specs.Rounding.{Operand};

use kept::{Kept, Side};
use std::{fmt, io};
use trial_support::{START, bits, next, operand};

// A kept number as its two parts.
#[derive(Clone, Copy, Debug, PartialEq, Eq)]
struct Parts(Kept);

impl fmt::Display for Parts {
    fn fmt<W: fmt::Write>(&self, f: &mut fmt::Formatter<W>) -> fmt::Result {
        write!(f, "{} {}", self.0.significand, self.0.exponent)
    }
}

// The results on the low side and on the high side.
#[derive(Clone, Copy, Debug, PartialEq, Eq)]
struct Results {
    low: Kept,
    high: Kept,
}

impl fmt::Display for Results {
    fn fmt<W: fmt::Write>(&self, f: &mut fmt::Formatter<W>) -> fmt::Result {
        write!(f, "{} .. {}", Parts(self.low), Parts(self.high))
    }
}

fn pair(rt: &impl Print, x: Kept, y: Kept) -> io::Result<()>
    requires { (Operand x) × (Operand y) }
{
    let product = Results {
        low: x.product(y, Side::Low),
        high: x.product(y, Side::High),
    };
    println!(rt; "product {} {} = {product}", Parts(x), Parts(y))?;
    let sum = Results {
        low: x.sum(y, Side::Low),
        high: x.sum(y, Side::High),
    };
    println!(rt; "sum {} {} = {sum}", Parts(x), Parts(y))
}

fn quotient(rt: &impl Print, x: Kept, divisor: u32) -> io::Result<()>
    requires { (Operand x) × (0 < divisor) }
{
    let quotient = Results {
        low: x.quotient(divisor, Side::Low),
        high: x.quotient(divisor, Side::High),
    };
    println!(rt; "quotient {} {divisor} = {quotient}", Parts(x))
}

// With the bits of the f64 of the number, or on which side of those that have one it lies.
fn shown(rt: &impl Print, x: Kept) -> io::Result<()>
    requires { Operand x }
{
    print!(rt; "f64 {} = ", Parts(x))?;
    if x.is_below_shown() {
        println!(rt; "below")
    } else if x.exponent > 192 {
        println!(rt; "above")
    } else {
        println!(rt; "{:016x}", bits(x.to_f64()))
    }
}

fn constants(rt: &impl Print) -> io::Result<()> {
    println!(rt; "zero = {}", Parts(Kept::zero()))?;
    println!(rt; "one = {}", Parts(Kept::one()))
}

fn integer(rt: &impl Print, n: u64) -> io::Result<()> {
    let integer = Results {
        low: Kept::from_integer(n, Side::Low),
        high: Kept::from_integer(n, Side::High),
    };
    println!(rt; "integer {n} = {integer}")
}

fn basis_points(rt: &impl Print, p: u32) -> io::Result<()> {
    let basis_points = Results {
        low: Kept::from_basis_points(p, Side::Low),
        high: Kept::from_basis_points(p, Side::High),
    };
    println!(rt; "basis points {p} = {basis_points}")
}

fn ratio(rt: &impl Print, n: u64, m: u64) -> io::Result<()>
    requires { (0 < m) × (m < 2 ^ 34) }
{
    let ratio = Results {
        low: Kept::from_ratio(n, m, Side::Low),
        high: Kept::from_ratio(n, m, Side::High),
    };
    println!(rt; "ratio {n} {m} = {ratio}")
}

// ---- edges

const INTEGERS: [u64; 18] = [
    0,
    1,
    3,
    64,
    0x7fff_ffff,
    0x8000_0000,
    0xffff_ffff,
    0x1_0000_0000,
    0x1_0000_0001,
    0x1_ffff_fffe,
    0x1_ffff_ffff,
    0x7fff_ffff_ffff_ffff,
    0x8000_0000_0000_0000,
    0x8000_0000_0000_0001,
    1_832_624_140_942_590_534,
    0xffff_ffff_0000_0000,
    0xffff_ffff_0000_0001,
    0xffff_ffff_ffff_ffff,
];

const BASIS_POINTS: [u32; 15] = [
    0,
    1,
    2,
    625,
    1_000,
    3_000,
    3_333,
    5_000,
    6_667,
    7_000,
    9_000,
    9_999,
    10_000,
    10_001,
    0xffff_ffff,
];

// Zero, and those of other kept numbers.
const SIGNIFICANDS: [u32; 8] = [
    0,
    0x8000_0000,
    0x8000_0001,
    0xaaaa_aaab,
    0xc000_0000,
    0xffff_0000,
    0xffff_fffe,
    0xffff_ffff,
];

const EXPONENTS: [i32; 13] = [0, 1, 30, 31, 32, 33, 1_000, -1, -30, -31, -32, -33, -1_000];

const SHOWN_EXPONENTS: [i32; 8] = [-832, -831, -830, -31, 0, 100, 192, 193];

const DIVISORS: [u32; 8] = [1, 2, 3, 7, 10_000, 640_000, 0x8000_0000, 0xffff_ffff];

const RATIO_DIVISORS: [u64; 9] = [
    1,
    3,
    10_000,
    0xffff_ffff,
    0x1_0000_0000,
    0x1_0000_0001,
    0x2_aaaa_aaab,
    0x3_0000_0000,
    0x3_ffff_ffff,
];

fn integers(rt: &impl Print) -> io::Result<()> {
    for n in INTEGERS {
        integer(rt, n)?;
    }
    Ok(())
}

fn all_basis_points(rt: &impl Print) -> io::Result<()> {
    for p in BASIS_POINTS {
        basis_points(rt, p)?;
    }
    Ok(())
}

fn zero_pairs(rt: &impl Print) -> io::Result<()> {
    for significand in SIGNIFICANDS {
        let x = operand(significand, -31);
        let zero = operand(0, 0);
        pair(rt, zero, x)?;
        pair(rt, x, zero)?;
    }
    Ok(())
}

fn pairs_with(rt: &impl Print, y: Kept) -> io::Result<()>
    requires { Operand y }
{
    for significand in &SIGNIFICANDS[1..] {
        pair(rt, operand(*significand, 0), y)?;
    }
    Ok(())
}

fn pairs_at(rt: &impl Print, exponent: i32) -> io::Result<()> {
    for significand in &SIGNIFICANDS[1..] {
        pairs_with(rt, operand(*significand, exponent))?;
    }
    Ok(())
}

fn edge_pairs(rt: &impl Print) -> io::Result<()> {
    for exponent in EXPONENTS {
        pairs_at(rt, exponent)?;
    }
    Ok(())
}

fn far_pairs(rt: &impl Print) -> io::Result<()> {
    let small = operand(0xffff_ffff, -80_000);
    let large = operand(0xffff_ffff, 100);
    pair(rt, small, large)?;
    pair(rt, large, small)?;
    pair(rt, small, small)
}

fn quotients_by(rt: &impl Print, divisor: u32) -> io::Result<()>
    requires { 0 < divisor }
{
    for significand in SIGNIFICANDS {
        quotient(rt, operand(significand, -31), divisor)?;
    }
    Ok(())
}

fn quotients(rt: &impl Print) -> io::Result<()> {
    for divisor in DIVISORS {
        quotients_by(rt, divisor)?;
    }
    Ok(())
}

fn shown_at(rt: &impl Print, exponent: i32) -> io::Result<()> {
    for significand in &SIGNIFICANDS[1..] {
        shown(rt, operand(*significand, exponent))?;
    }
    Ok(())
}

fn edges_shown(rt: &impl Print) -> io::Result<()> {
    shown(rt, operand(0, 0))?;
    for exponent in SHOWN_EXPONENTS {
        shown_at(rt, exponent)?;
    }
    Ok(())
}

fn ratios_by(rt: &impl Print, m: u64) -> io::Result<()>
    requires { (0 < m) × (m < 2 ^ 34) }
{
    for n in INTEGERS {
        ratio(rt, n, m)?;
    }
    Ok(())
}

fn ratios(rt: &impl Print) -> io::Result<()> {
    for m in RATIO_DIVISORS {
        ratios_by(rt, m)?;
    }
    Ok(())
}

// ---- random numbers

fn random_significand(word: u64) -> u32 {
    0x8000_0000 + (word >> 33) as u32
}

// From −1,140 to 140.
fn random_exponent(n: u64) -> i32 {
    (n % 1_281) as i32 - 1_140
}

// The second exponent lies within 40 of the first, or in one case of four anywhere.
fn random_case(rt: &impl Print, first: u64, second: u64) -> io::Result<()> {
    let place = first % 1_201;
    let near = second % 4 > 0;
    let other = if near { place + second % 81 } else { second };
    let x = operand(random_significand(first), random_exponent(place + 40));
    let y = operand(random_significand(second), random_exponent(other));
    pair(rt, x, y)?;
    quotient(rt, x, (second % 0xffff_ffff) as u32 + 1)?;
    quotient(rt, y, (first % 1_000) as u32 + 1)?;
    shown(rt, x)
}

fn random_divisor(word: u64) -> u64
    ensures { (0 < result) × (result < 2 ^ 34) }
{
    word % 0x3_ffff_ffff + 1
}

// From 2^20 + 1 to 2^21 − 1.
fn random_odd(word: u64) -> u32
    ensures { (0 < result) × (result < 2 ^ 21) }
{
    (word % 0x8_0000) as u32 * 2 + 0x10_0001
}

// Numbers of full and of random length, then a quotient of 32 digits at most that leaves nothing.
fn random_ratio(rt: &impl Print, first: u64, second: u64) -> io::Result<()> {
    ratio(rt, first, random_divisor(second))?;
    ratio(
        rt,
        first >> (second % 64),
        random_divisor(second >> (first % 64)),
    )?;
    let odd = random_odd(first);
    let n = u64::from(odd) * u64::from(random_significand(second));
    ratio(rt, n, u64::from(odd) * 0x2000)
}

// So many cases, each of two random words.
fn random_cases<F: Fn(u64, u64) -> io::Result<()>>(count: u32, case: F) -> io::Result<()>
    requires { F.IsAlwaysCallable case }
{
    let mut word = START;
    for _ in 0..count {
        let second = next(word);
        case(word, second)?;
        word = next(second);
    }
    Ok(())
}

fn main(rt: HostRuntime) -> io::Result<()> {
    constants(&rt)?;
    integers(&rt)?;
    all_basis_points(&rt)?;
    zero_pairs(&rt)?;
    edge_pairs(&rt)?;
    far_pairs(&rt)?;
    quotients(&rt)?;
    edges_shown(&rt)?;
    random_cases(250, |first, second| random_case(&rt, first, second))?;
    ratios(&rt)?;
    random_cases(100, |first, second| random_ratio(&rt, first, second))
}
