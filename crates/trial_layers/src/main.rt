// Runs the layer call: layers of one default, from the first, to the last and of all, beside the tranches that have the same
// attachments, losses around 2^−800, the edges and the order of the grounds, lengths of the store, stores of other pools, and random
// layers, a line for each case. tools/trial_layers.py works the same lines out in exact whole numbers.
#![tactic(auto)]

ghost use Rattle.std.specs.Prelude.{◌≤◌};

use pool::Pool;
use std::io;
use trial_inputs::edges::{exact_lengths, later_ends, longer_lengths, over_others};
use trial_inputs::random::{layers_case, random_cases};
use trial_lines::{Call, Library, alike, pool_of};
use trial_pool::{run, run_ample, run_each, run_losses, run_over};

const MOST: u32 = 0xffff_ffff;

fn pool(assets: u32) -> Pool {
    pool_of(assets, 1_000, 3_000)
}

fn layer(rt: &impl Print, pool: Pool, i: u32, j: u32) -> io::Result<()> {
    run_ample(rt, Call::Layer(i, j), pool)
}

// ---- pools

// Probability and correlation at their ends and between them.
fn pools(rt: &impl Print, assets: u32, i: u32, j: u32) -> io::Result<()> {
    let call = Call::Layer(i, j);
    run_each(
        rt,
        call,
        &[
            (assets, 1_000, 3_000),
            (assets, 1, 9_999),
            (assets, 9_999, 1),
            (assets, 0, 0),
        ],
    )?;
    later_ends(rt, call, assets)
}

// One default, the first, one between and the last; from the first on, up to the last, and all.
fn layers(rt: &impl Print, assets: u32, middle: u32) -> io::Result<()> {
    pools(rt, assets, 1, 1)?;
    pools(rt, assets, middle, middle)?;
    pools(rt, assets, assets, assets)?;
    pools(rt, assets, 1, middle)?;
    pools(rt, assets, middle, assets)?;
    pools(rt, assets, 1, assets)
}

// ---- tranches

// A layer, and the tranche that has the same attachments and no recovery, of so many assets.
fn beside(rt: &impl Print, assets: u32, layer: Call, lower: u32, upper: u32) -> io::Result<()> {
    for pool in [(assets, 1_000, 3_000), (assets, 250, 500)] {
        run_each(rt, layer, &[pool])?;
        run_losses(rt, Library::Pool, &[(pool, (0, lower, upper))])?;
    }
    Ok(())
}

// The number of assets divides 10,000, but for that of the last four pools, with layers that have whole attachments all the same.
fn all_beside(rt: &impl Print) -> io::Result<()> {
    for (assets, (i, j), (lower, upper)) in [
        (1, (1, 1), (0, 10_000)),
        (2, (1, 1), (0, 5_000)),
        (2, (2, 2), (5_000, 10_000)),
        (4, (2, 3), (2_500, 7_500)),
        (5, (1, 5), (0, 10_000)),
        (5, (4, 4), (6_000, 8_000)),
        (8, (3, 7), (2_500, 8_750)),
        (10, (1, 3), (0, 3_000)),
        (10, (10, 10), (9_000, 10_000)),
        (16, (2, 15), (625, 9_375)),
        (20, (2, 15), (500, 7_500)),
        (20, (20, 20), (9_500, 10_000)),
        (25, (5, 5), (1_600, 2_000)),
        (40, (1, 39), (0, 9_750)),
        (50, (11, 50), (2_000, 10_000)),
        (80, (21, 60), (2_500, 7_500)),
        (100, (1, 1), (0, 100)),
        (100, (34, 67), (3_300, 6_700)),
        (100, (1, 100), (0, 10_000)),
        (3, (1, 3), (0, 10_000)),
        (64, (5, 32), (625, 5_000)),
        (65, (14, 26), (2_000, 4_000)),
        (99, (1, 99), (0, 10_000)),
    ] {
        beside(rt, assets, Call::Layer(i, j), lower, upper)?;
    }
    Ok(())
}

// ---- losses around 2^−800

// The i-th default of 64 alone, and all from it on.
fn last_defaults(rt: &impl Print, i: u32) -> io::Result<()> {
    layer(rt, pool_of(64, 1, 0), i, i)?;
    layer(rt, pool_of(64, 1, 0), i, 64)
}

// Above it with one j, and below it with the next.
fn last_shown(rt: &impl Print, pool: Pool, i: u32, j: u32) -> io::Result<()>
    requires { j ≤ 100 }
{
    layer(rt, pool, i, j)?;
    layer(rt, pool, i, j + 1)
}

fn faint(rt: &impl Print) -> io::Result<()> {
    for i in 60..65 {
        last_defaults(rt, i)?;
    }
    last_shown(rt, pool_of(98, 8, 0), 83, 92)?;
    last_shown(rt, pool_of(89, 3, 0), 73, 79)?;
    last_shown(rt, pool_of(94, 5, 0), 78, 87)?;
    layer(rt, pool_of(76, 5, 0), 74, 74)?;
    layer(rt, pool_of(100, 5, 0), 79, 100)?;
    layer(rt, pool_of(100, 1, 0), 66, 66)?;
    layer(rt, pool_of(100, 1, 0), 67, 67)?;
    layer(rt, pool_of(100, 1, 0), 100, 100)?;
    layer(rt, pool_of(100, 1, 1), 99, 100)?;
    layer(rt, pool_of(100, 1, 1), 100, 100)
}

// ---- grounds

fn each_edge(rt: &impl Print, pool: Pool, i: u32, later: u32) -> io::Result<()> {
    for j in [0, 1, pool.assets, later, 0x8000_0000, MOST] {
        layer(rt, pool, i, j)?;
    }
    Ok(())
}

// Each of i and j at 0, at 1, at the last default, one behind it, and far behind it.
fn layer_edges(rt: &impl Print, assets: u32) -> io::Result<()>
    requires { assets ≤ 100 }
{
    let later = assets + 1;
    for i in [0, 1, assets, later, 0x8000_0000, MOST] {
        each_edge(rt, pool(assets), i, later)?;
    }
    Ok(())
}

// Two defaults next to each other in both orders, and each of them alone.
fn neighbours(rt: &impl Print, assets: u32, i: u32, j: u32) -> io::Result<()> {
    layer(rt, pool(assets), i, j)?;
    layer(rt, pool(assets), j, i)?;
    layer(rt, pool(assets), i, i)?;
    layer(rt, pool(assets), j, j)
}

fn pool_edges(rt: &impl Print) -> io::Result<()> {
    for assets in [0, 1, 100, 101, MOST] {
        layer(rt, pool(assets), 1, 1)?;
    }
    run_each(
        rt,
        Call::Layer(2, 3),
        &[
            (3, 10_000, 3_000),
            (3, 10_001, 3_000),
            (3, MOST, 3_000),
            (3, 1_000, 10_000),
            (3, 1_000, 10_001),
            (3, 1_000, MOST),
        ],
    )
}

// ---- the order of the grounds

fn without_places(rt: &impl Print, pool: Pool, i: u32, j: u32) -> io::Result<()> {
    run(rt, Call::Layer(i, j), pool, alike(0))
}

// A layer that is wrong in each way, with enough places and with none; then a right one with none.
fn order_in(rt: &impl Print, pool: Pool) -> io::Result<()> {
    const WRONG: [(u32, u32); 4] = [(0, 1), (2, 1), (1, 102), (MOST, 0)];
    for (i, j) in WRONG {
        layer(rt, pool, i, j)?;
    }
    for (i, j) in WRONG {
        without_places(rt, pool, i, j)?;
    }
    without_places(rt, pool, 1, 1)
}

fn order(rt: &impl Print) -> io::Result<()> {
    for (assets, probability, correlation) in [
        (0, 1_000, 3_000),
        (101, 1_000, 3_000),
        (MOST, 1_000, 3_000),
        (0, 10_001, 10_001),
        (101, 10_001, 3_000),
        (101, 1_000, 10_001),
        (3, 10_001, 3_000),
        (3, 10_001, 10_001),
        (3, 1_000, 10_001),
        (3, 1_000, 3_000),
        (100, 1_000, 3_000),
    ] {
        order_in(rt, pool_of(assets, probability, correlation))?;
    }
    Ok(())
}

// ---- lengths of the store

// Also on the stores of other pools, which a refusal leaves.
fn lengths(rt: &impl Print, assets: u32, exact: usize, short: usize) -> io::Result<()>
    requires { exact ≤ 5151 }
{
    let call = Call::Layer(1, assets);
    exact_lengths(rt, call, pool(assets), exact, short)?;
    exact_lengths(rt, Call::Layer(0, assets), pool(assets), exact, short)?;
    longer_lengths(rt, call, pool(assets), exact)?;
    over_others(rt, call, pool(assets))?;
    over_others(rt, Call::Layer(assets, 0), pool(assets))
}

// Over what a pool of 100 assets left.
fn over_hundred(rt: &impl Print, i: u32, j: u32, pool: Pool) -> io::Result<()> {
    run_over(rt, pool_of(100, 500, 250), Call::Layer(i, j), pool)
}

fn stores(rt: &impl Print) -> io::Result<()> {
    over_hundred(rt, 2, 3, pool(3))?;
    over_hundred(rt, 2, 65, pool(65))?;
    over_hundred(rt, 2, 100, pool(100))?;
    over_hundred(rt, 2, 101, pool(100))?;
    over_hundred(rt, 1, 1, pool(0))?;
    over_hundred(rt, 1, 1, pool(101))?;
    over_hundred(rt, 1, 1, pool_of(3, 10_001, 3_000))?;
    over_hundred(rt, 1, 1, pool_of(3, 1_000, 10_001))?;
    over_hundred(rt, MOST, 0, pool(3))?;
    over_hundred(rt, 0, MOST, pool(3))
}

fn main(rt: HostRuntime) -> io::Result<()> {
    pools(&rt, 1, 1, 1)?;
    layers(&rt, 20, 10)?;
    layers(&rt, 64, 21)?;
    layers(&rt, 65, 33)?;
    layers(&rt, 100, 60)?;
    all_beside(&rt)?;
    faint(&rt)?;
    for assets in [1, 3, 100] {
        layer_edges(&rt, assets)?;
    }
    neighbours(&rt, 3, 1, 2)?;
    neighbours(&rt, 64, 40, 41)?;
    neighbours(&rt, 100, 99, 100)?;
    pool_edges(&rt)?;
    order(&rt)?;
    lengths(&rt, 1, 3, 2)?;
    lengths(&rt, 3, 10, 9)?;
    lengths(&rt, 20, 231, 230)?;
    lengths(&rt, 64, 2_145, 2_144)?;
    lengths(&rt, 65, 2_211, 2_210)?;
    lengths(&rt, 100, 5_151, 5_150)?;
    stores(&rt)?;
    random_cases(100, |word| layers_case(&rt, word))
}
