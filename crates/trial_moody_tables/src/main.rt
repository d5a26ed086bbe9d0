// Tables 1, 2 and 4 of "Moody's Correlated Binomial Default Distribution" (2004): for each chance of the first two and each expected
// loss of the last, the low and the high bound, rounded to as many places as are printed there. Both have to be the printed figure,
// from which tools/trial_moody_tables.py makes the expected lines.
#![tactic(auto)]

ghost use Rattle.std.specs.Prelude.{◌≤◌, ◌<◌};

use kept::{Kept, Side};
use pool::{Loss, Pool, StoreMut, TRANCHES, Tranche};
use std::{fmt, io};
use trial_support::{bits, operand};
use working::PLACES;

// The places of a store for 36 assets.
const STORE: usize = 703;

// significand / 2^shift, written in per cent with two, three or four digits behind the point, rounded to the nearest, a half up.
#[derive(Clone, Copy, Debug, PartialEq, Eq)]
struct Percentage {
    significand: u32,
    shift: u32,
    digits: usize,
}

impl Percentage {
    // A number below 1.
    fn of_kept(x: Kept, digits: usize) -> Percentage {
        Percentage {
            significand: x.significand,
            shift: x.exponent.unsigned_abs(),
            digits,
        }
    }

    // The same, by the first 32 of its binary digits.
    fn of_f64(x: f64, digits: usize) -> Percentage {
        let word = bits(x);
        let shift = 1_054u64.saturating_sub(word >> 52);
        Percentage {
            significand: 0x8000_0000 + (word % 0x10_0000_0000_0000 >> 21) as u32,
            shift: shift as u32,
            digits,
        }
    }
}

impl fmt::Display for Percentage {
    fn fmt<W: fmt::Write>(&self, f: &mut fmt::Formatter<W>) -> fmt::Result {
        let digits = self.digits;
        let one: u64 = match digits {
            2 => 100,
            3 => 1_000,
            _ => 10_000,
        };
        let doubled = u64::from(self.significand) * one * 200;
        let n = doubled.checked_shr(self.shift).unwrap_or(0).div_ceil(2);
        write!(f, "{}.{:0digits$}%", n / one, n % one)
    }
}

// The chances of 0 to n defaults on one side, at a default probability of 5 per cent.
#[tactic(auto, unfolding(steps::specs::Inputs::working_assets, model::specs::Fraction::whole))]
fn chances_of(n: u32, correlation: u32, side: Side) -> [Kept; PLACES]
    requires not_empty { 0 < n }
    requires assets { n ≤ 36 }
    requires correlation { correlation ≤ 10000 }
{
    let pool = Pool {
        assets: n,
        probability: 500,
        correlation,
    };
    let row = rows::last_row(pool, side);
    chances::chances(n, row, side)
}

// Up to four defaults two digits are printed, then three.
fn write_chances(rt: &impl Print, low: &[Kept], high: &[Kept]) -> io::Result<()> {
    for (j, (low, high)) in low.iter().zip(high).enumerate() {
        let digits = if j < 5 { 2 } else { 3 };
        let low = Percentage::of_kept(*low, digits);
        let high = Percentage::of_kept(*high, digits);
        println!(rt; "{j} {low} {high}")?;
    }
    Ok(())
}

fn plus(x: Kept, y: Kept, side: Side) -> Kept {
    operand(x.significand, x.exponent).sum(operand(y.significand, y.exponent), side)
}

// The chance that more than half of ten assets default, added from ten down.
fn more_than_half(chances: [Kept; PLACES], side: Side) -> Percentage {
    let sum = chances[6..11]
        .iter()
        .rev()
        .fold(Kept::zero(), |sum, chance| plus(sum, *chance, side));
    Percentage::of_kept(sum, 3)
}

// The first chances of a column of Table 1 or 2. Table 1 has the chance that more than half default too.
fn column(
    rt: &impl Print,
    table: u32,
    assets: u32,
    correlation: u32,
    count: usize,
) -> io::Result<()>
    requires { (0 < assets) × ((assets ≤ 36) × ((correlation ≤ 10000) × (count ≤ 65))) }
{
    let low = chances_of(assets, correlation, Side::Low);
    let high = chances_of(assets, correlation, Side::High);
    println!(rt; "table {table} assets {assets} correlation {correlation}")?;
    write_chances(rt, &low[..count], &high[..count])?;
    if table == 1 {
        let low = more_than_half(low, Side::Low);
        let high = more_than_half(high, Side::High);
        println!(rt; "more than half {low} {high}")?;
    }
    Ok(())
}

// A tranche of Table 4.
fn tranche_of(lower: u32, upper: u32) -> Tranche {
    Tranche {
        recovery: 3_000,
        lower,
        upper,
    }
}

fn write_loss(rt: &impl Print, pool: Pool, tranche: Tranche, loss: Loss) -> io::Result<()> {
    print!(rt;
        "table 4 assets {} correlation {}",
        pool.assets, pool.correlation
    )?;
    print!(rt; " tranche {} {}", tranche.lower, tranche.upper)?;
    match loss {
        Loss::Shown(bounds) => {
            let low = Percentage::of_f64(bounds.low, 4);
            let high = Percentage::of_f64(bounds.high, 4);
            println!(rt; " {low} {high}")
        }
        _ => println!(rt; ""),
    }
}

// The expected losses of two tranches of Table 4, one on top of the other, by one call.
fn losses(
    rt: &impl Print,
    assets: u32,
    probability: u32,
    correlation: u32,
    lower: u32,
    upper: u32,
) -> io::Result<()> {
    let mut low_significands = [0u32; STORE];
    let mut high_significands = [0u32; STORE];
    let mut low_exponents = [0i32; STORE];
    let mut high_exponents = [0i32; STORE];
    let mut store = StoreMut {
        low_significands: &mut low_significands,
        high_significands: &mut high_significands,
        low_exponents: &mut low_exponents,
        high_exponents: &mut high_exponents,
    };
    let pool = Pool {
        assets,
        probability,
        correlation,
    };
    let senior = tranche_of(upper, 10_000);
    let junior = tranche_of(lower, upper);
    let mut tranches = [junior; TRANCHES];
    tranches[0] = senior;
    let filled = pool::tranche_losses(pool, pool, tranches, 2, &mut store);
    let losses = filled.answer.losses;
    write_loss(rt, pool, senior, losses[0])?;
    write_loss(rt, pool, junior, losses[1])
}

fn main(rt: HostRuntime) -> io::Result<()> {
    column(&rt, 1, 10, 0, 11)?;
    column(&rt, 1, 10, 250, 11)?;
    column(&rt, 1, 10, 500, 11)?;
    column(&rt, 2, 10, 0, 11)?;
    column(&rt, 2, 13, 250, 14)?;
    // Table 2 does not print the chance that all 19 default.
    column(&rt, 2, 19, 500, 19)?;
    losses(&rt, 13, 500, 250, 1_500, 2_100)?;
    losses(&rt, 19, 500, 500, 1_500, 2_100)?;
    losses(&rt, 15, 1_000, 625, 1_750, 4_050)?;
    losses(&rt, 36, 1_000, 1_000, 1_750, 4_050)
}
