// Runs the calls of the beta-binomial at the edges of what they accept, beside those of Moody's model where the two have the same
// chances, and on random pools, a line for each case. tools/trial_beta.py works the same lines out in exact whole numbers.
#![tactic(auto)]

ghost use Rattle.std.specs.Prelude.{◌≤◌};

use pool::Pool;
use std::io;
use trial_inputs::edges::{corners, list_half_way, list_pools, no_places};
use trial_inputs::random::{beta_case, random_cases};
use trial_lines::tranches::{REFUSED, tranche_of};
use trial_lines::{Call, Library, ROWS, pool_of};
use trial_pool::{run_ample, run_losses};

fn column(places: usize) -> Call {
    Call::Column(Library::BetaBinomial, places)
}

// A pool of probability 1,000.
fn pool(assets: u32, correlation: u32) -> Pool {
    pool_of(assets, 1_000, correlation)
}

// A column that fits, and one place short; then with places behind it.
fn lengths(rt: &impl Print, assets: u32, correlation: u32, rows: usize) -> io::Result<()>
    requires { (1 ≤ rows) × (rows ≤ 65) }
{
    run_ample(rt, column(rows), pool(assets, correlation))?;
    run_ample(rt, column(rows - 1), pool(assets, correlation))?;
    run_ample(rt, column(rows + 5), pool(assets, correlation))
}

// One thing wrong at a time, with its edge.
fn each_wrong(rt: &impl Print, assets: u32, correlation: u32) -> io::Result<()> {
    let ordinary = (assets, 1_000, correlation);
    run_losses(
        rt,
        Library::BetaBinomial,
        &[
            ((assets, 10_000, correlation), (0, 0, 10_000)),
            ((assets, 10_001, correlation), (0, 0, 10_000)),
            (ordinary, (10_000, 0, 10_000)),
            (ordinary, (10_001, 0, 10_000)),
            (ordinary, (4_000, 0, 10_001)),
            (ordinary, (4_000, 2_999, 3_000)),
            (ordinary, (4_000, 3_000, 3_000)),
            (ordinary, (4_000, 3_001, 3_000)),
            (ordinary, (0, 9_999, 10_000)),
            (ordinary, (4_000, 6_000, 10_000)),
        ],
    )
}

// With no places and a tranche that 4, 5 and 6 refuse: the first ground in the order is given.
fn all_wrong(rt: &impl Print, pool: Pool) -> io::Result<()> {
    run_ample(rt, column(0), pool)?;
    run_ample(rt, Call::Loss(Library::BetaBinomial, REFUSED), pool)
}

fn order(rt: &impl Print) -> io::Result<()> {
    for (assets, probability, correlation) in [
        (0, 10_001, 10_000),
        (101, 10_001, 10_000),
        (0, 1_000, 10_000),
        (3, 10_001, 10_001),
        (3, 10_001, 10_000),
        (3, 1_000, 10_001),
        (3, 1_000, 10_000),
        (3, 1_000, 9_999),
        (0xffff_ffff, 0xffff_ffff, 0xffff_ffff),
        (3, 0xffff_ffff, 0xffff_ffff),
        (3, 1_000, 0xffff_ffff),
    ] {
        all_wrong(rt, pool_of(assets, probability, correlation))?;
    }
    run_losses(
        rt,
        Library::BetaBinomial,
        &[
            ((3, 1_000, 10_000), (4_000, 3_000, 3_000)),
            ((3, 1_000, 10_000), (4_000, 0, 10_001)),
            ((3, 1_000, 9_999), (10_001, 0, 10_001)),
            ((3, 1_000, 9_999), (4_000, 10_001, 10_001)),
            ((3, 1_000, 9_999), (10_001, 3_000, 3_000)),
        ],
    )
}

fn losses_of(rt: &impl Print, assets: u32, probability: u32) -> io::Result<()> {
    run_losses(
        rt,
        Library::BetaBinomial,
        &[
            ((assets, probability, 0), (0, 1_000, 3_000)),
            ((assets, probability, 1), (0, 1_000, 3_000)),
            ((assets, probability, 9_999), (0, 1_000, 3_000)),
            ((assets, probability, 10_000), (0, 1_000, 3_000)),
            ((assets, probability, 1), (0, 9_999, 10_000)),
        ],
    )
}

fn losses(rt: &impl Print, assets: u32) -> io::Result<()> {
    for probability in [0, 1, 9_999, 10_000] {
        losses_of(rt, assets, probability)?;
    }
    Ok(())
}

fn both_columns(rt: &impl Print, pool: Pool) -> io::Result<()> {
    run_ample(rt, Call::Column(Library::Pool, ROWS), pool)?;
    run_ample(rt, Call::Column(Library::BetaBinomial, ROWS), pool)
}

// By both models.
fn both(rt: &impl Print, pool: Pool) -> io::Result<()> {
    let tranche = tranche_of(4_000, 1_000, 3_000);
    both_columns(rt, pool)?;
    run_ample(rt, Call::Loss(Library::Pool, tranche), pool)?;
    run_ample(rt, Call::Loss(Library::BetaBinomial, tranche), pool)
}

// One asset, two assets and no correlation: the same chances. Then others; full correlation is refused by the beta-binomial alone.
fn models(rt: &impl Print) -> io::Result<()> {
    for (assets, correlation) in [
        (1, 3_000),
        (1, 9_999),
        (2, 1),
        (2, 3_000),
        (2, 9_999),
        (20, 0),
        (64, 0),
        (3, 3_000),
        (50, 3_000),
        (3, 10_000),
    ] {
        both(rt, pool(assets, correlation))?;
    }
    Ok(())
}

// One tranche, at the correlation of either model that its premium implies.
fn implied(rt: &impl Print, lower: u32, upper: u32, moody: u32, beta: u32) -> io::Result<()> {
    let tranche = (3_500, lower, upper);
    run_losses(rt, Library::Pool, &[((50, 184, moody), tranche)])?;
    run_losses(rt, Library::BetaBinomial, &[((50, 184, beta), tranche)])
}

// The pool of Figures 3 to 5 of source document 000, and the correlations of its Table 2.
fn printed_figures(rt: &impl Print) -> io::Result<()> {
    both_columns(rt, pool(2, 1_000))?;
    both_columns(rt, pool(30, 1_000))?;
    implied(rt, 300, 600, 127, 126)?;
    implied(rt, 600, 900, 316, 315)?;
    implied(rt, 900, 1_200, 616, 611)?;
    implied(rt, 1_200, 2_200, 978, 973)
}

fn edges(rt: &impl Print) -> io::Result<()> {
    list_pools(rt, column(ROWS))?;
    for assets in [1, 2, 64] {
        corners(rt, column(ROWS), assets)?;
    }
    no_places(rt, column(0))?;
    lengths(rt, 1, 3_000, 2)?;
    lengths(rt, 3, 9_999, 4)?;
    lengths(rt, 3, 10_000, 4)?;
    lengths(rt, 64, 3_000, 65)?;
    list_half_way(rt, column(ROWS))?;
    // The tail at 2 is half way between two units on the low side.
    run_ample(rt, column(ROWS), pool_of(3, 2_500, 5_000))?;
    order(rt)?;
    each_wrong(rt, 1, 3_000)?;
    each_wrong(rt, 64, 9_999)?;
    each_wrong(rt, 64, 10_000)?;
    losses(rt, 1)?;
    losses(rt, 2)?;
    losses(rt, 64)?;
    models(rt)?;
    printed_figures(rt)
}

fn main(rt: HostRuntime) -> io::Result<()> {
    edges(&rt)?;
    random_cases(300, |word| beta_case(&rt, word))
}
