// What the test programs share: reading numbers, random words, checksums, the number of a refusal, kept numbers from their parts.
#![tactic(auto)]

ghost use Rattle.kept.specs.Rounding.{Operand};

use grounds::Refusal;
use kept::Kept;
use std::io;
use std::io::Read;

// One more than the digits of the largest u32.
const DIGITS: u32 = 11;

// The word that random words and checksums start from.
pub const START: u64 = 0x9e37_79b9_7f4a_7c15;

// The next byte, or a newline behind the last.
fn read_byte(input: &mut impl Read) -> io::Result<u8> {
    let mut byte = [b'\n'];
    let count = input.read(&mut byte)?;
    Ok(if count == 0 { b'\n' } else { byte[0] })
}

// The number up to the next byte that is no digit.
pub fn read_number(rt: &impl Input) -> io::Result<u32> {
    let mut input = rt.reader();
    let mut number = 0u32;
    for _ in 0..DIGITS {
        let byte = read_byte(&mut input)?;
        if !byte.is_ascii_digit() {
            break;
        }
        number = number.wrapping_mul(10).wrapping_add(u32::from(byte - b'0'));
    }
    Ok(number)
}

// The first places of a slice, as many as asked for or as there are.
pub fn first<T>(places: &[T], count: usize) -> &[T] {
    &places[..count.min(places.len())]
}

pub fn first_mut<T>(places: &mut [T], count: usize) -> &mut [T] {
    let count = count.min(places.len());
    &mut places[..count]
}

// The number of a call's refusal, 0 of an answer.
pub fn refusal_number<T: Copy>(outcome: Result<T, Refusal>) -> u32 {
    outcome.err().map_or(0, u32::from)
}

// The bits of an f64, or 0 where it is not a number.
pub fn bits(x: f64) -> u64 {
    if x == x { x.to_bits() } else { 0 }
}

// The kept number with this significand and this exponent, or zero where they make no operand.
#[tactic(auto, unfolding(kept::specs::Rounding::nought), using(kept::specs::Rounding::Laws::nought_kept))]
pub fn operand(significand: u32, exponent: i32) -> Kept
    ensures { Operand result }
{
    if significand >= 0x8000_0000 && exponent.unsigned_abs() <= 1_000_000_000 {
        Kept {
            significand,
            exponent,
        }
    } else {
        Kept::zero()
    }
}

// The next of a row of random words.
pub fn next(word: u64) -> u64 {
    let a = word ^ (word << 13);
    let b = a ^ (a >> 7);
    b ^ (b << 17)
}

// A number that a checksum is made of.
pub trait Summed: Copy {
    // The checksum with this number behind the others.
    fn after(self, sum: u64) -> u64;
}

impl Summed for u8 {
    fn after(self, sum: u64) -> u64 {
        next(sum ^ u64::from(self))
    }
}

impl Summed for u32 {
    fn after(self, sum: u64) -> u64 {
        next(sum ^ u64::from(self))
    }
}

impl Summed for i32 {
    fn after(self, sum: u64) -> u64 {
        next(next(sum ^ u64::from(self < 0)) ^ u64::from(self.unsigned_abs()))
    }
}

// A word that depends on another, on every number and on its place.
pub fn checksum<T: Summed>(start: u64, numbers: &[T]) -> u64 {
    numbers.iter().fold(start, |sum, n| n.after(sum))
}
