// Runs the calls of the quote screen around its ceiling, at the edges of what they accept, and on random pools of up to 20 assets
// beside the library's calls, a line for each case. tools/trial_screen.py works the same lines out in exact whole numbers.
#![tactic(auto)]

use pool::Pool;
use std::io;
use trial_inputs::edges::{
    exact_lengths, later_ends, list_lengths, lists, longer_lengths, over_others,
};
use trial_inputs::random::{random_cases, screen_case};
use trial_lines::tranches::tranche_of;
use trial_lines::{Call, LARGE_ROWS, Library, ROWS, alike, pool_of};
use trial_pool::{run, run_ample, run_each};

fn column_of(places: usize) -> Call {
    Call::Column(Library::Screen, places)
}

// A pool of probability 1,000 and correlation 3,000.
fn pool(assets: u32) -> Pool {
    pool_of(assets, 1_000, 3_000)
}

fn loss(recovery: u32, lower: u32, upper: u32) -> Call {
    Call::Loss(Library::Screen, tranche_of(recovery, lower, upper))
}

// Nothing wrong, then everything.
fn around(rt: &impl Print, places: usize, assets: u32) -> io::Result<()> {
    let wrong = pool_of(assets, 10_001, 10_001);
    run_ample(rt, column_of(places), pool(assets))?;
    run_ample(rt, loss(4_000, 1_000, 3_000), pool(assets))?;
    run(rt, column_of(0), wrong, alike(0))?;
    run(rt, loss(10_001, 10_001, 10_001), wrong, alike(0))
}

// One thing wrong at a time.
fn each_wrong(rt: &impl Print, places: usize, assets: u32) -> io::Result<()> {
    let pools = [(assets, 10_001, 3_000), (assets, 1_000, 10_001)];
    run_each(rt, column_of(places), &pools)?;
    run(rt, column_of(places), pool(assets), alike(0))?;
    run_ample(rt, column_of(0), pool(assets))?;
    run_each(rt, loss(0, 0, 10_000), &pools)?;
    run_ample(rt, loss(10_001, 0, 10_000), pool(assets))?;
    run_ample(rt, loss(4_000, 0, 10_001), pool(assets))?;
    run_ample(rt, loss(4_000, 3_000, 3_000), pool(assets))?;
    run(rt, loss(4_000, 0, 10_000), pool(assets), alike(0))
}

// Two things wrong: the first ground in the order is given.
fn two_wrong(rt: &impl Print, assets: u32) -> io::Result<()> {
    run_ample(rt, column_of(ROWS), pool_of(assets, 10_001, 10_001))?;
    run(
        rt,
        column_of(ROWS),
        pool_of(assets, 1_000, 10_001),
        alike(0),
    )?;
    run(rt, column_of(0), pool(assets), alike(0))?;
    run_ample(rt, loss(0, 0, 10_000), pool_of(assets, 10_001, 10_001))?;
    run_ample(rt, loss(10_001, 0, 10_000), pool_of(assets, 1_000, 10_001))?;
    run_ample(rt, loss(10_001, 0, 10_001), pool(assets))?;
    run_ample(rt, loss(4_000, 10_001, 10_001), pool(assets))?;
    run(rt, loss(4_000, 3_000, 3_000), pool(assets), alike(0))
}

// A tranche at the edges of its grounds.
fn tranches(rt: &impl Print, assets: u32) -> io::Result<()> {
    run_ample(rt, loss(10_000, 0, 10_000), pool(assets))?;
    run_ample(rt, loss(0, 9_999, 10_000), pool(assets))?;
    run_ample(rt, loss(4_000, 2_999, 3_000), pool(assets))?;
    run_ample(rt, loss(4_000, 6_000, 10_000), pool(assets))
}

// Also on the stores of other pools, which a refusal leaves.
fn losses(rt: &impl Print, assets: u32, exact: usize, short: usize) -> io::Result<()> {
    tranches(rt, assets)?;
    later_ends(rt, loss(0, 1_000, 3_000), assets)?;
    exact_lengths(rt, loss(4_000, 1_000, 3_000), pool(assets), exact, short)?;
    over_others(rt, loss(4_000, 1_000, 3_000), pool(assets))
}

fn grounds(rt: &impl Print) -> io::Result<()> {
    for assets in [0, 1, 20, 21, 64, 101, 0xffff_ffff] {
        around(rt, ROWS, assets)?;
    }
    for assets in [20, 21, 64, 101] {
        each_wrong(rt, ROWS, assets)?;
    }
    for assets in [65, 100] {
        around(rt, LARGE_ROWS, assets)?;
        each_wrong(rt, LARGE_ROWS, assets)?;
    }
    Ok(())
}

fn edges(rt: &impl Print) -> io::Result<()> {
    grounds(rt)?;
    two_wrong(rt, 20)?;
    lists(rt, column_of(ROWS))?;
    list_lengths(rt, column_of(ROWS), 20, 231, 230, 21)?;
    list_lengths(rt, column_of(ROWS), 21, 253, 252, 22)?;
    losses(rt, 1, 3, 2)?;
    losses(rt, 20, 231, 230)?;
    losses(rt, 21, 253, 252)?;
    longer_lengths(rt, loss(4_000, 1_000, 3_000), pool(20), 231)
}

fn main(rt: HostRuntime) -> io::Result<()> {
    edges(&rt)?;
    random_cases(300, |word| screen_case(&rt, word))
}
