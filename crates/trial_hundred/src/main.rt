// Runs the calls of both models on pools of 64 to 101 assets: probability and correlation at and next to their ends and between
// them, the refusals and their order, lengths of the slices, the rows of a store for 100 assets, stores over one another, last
// digits that depend on how the counts of orders are rounded, losses around 2^−800, and random pools, a line for each case.
// tools/trial_hundred.py works the same lines out in exact whole numbers.
#![tactic(auto)]

ghost use Rattle.std.specs.Prelude.{◌≤◌};

use pool::{Pool, TRANCHES, Tranche};
use std::io;
use trial_inputs::edges::{
    corners, exact_lengths, list_lengths, longer_lengths, over_others, rows_of,
};
use trial_inputs::random::{large_case, random_cases};
use trial_lines::tranches::{REFUSED, Tranches, spread, tranche_of};
use trial_lines::{Call, LARGE_ROWS, Library, alike, pool_of, whole};
use trial_pool::{filled_rows, row, run, run_ample, run_each, run_over};

fn pool(assets: u32) -> Pool {
    pool_of(assets, 1_000, 3_000)
}

fn column(library: Library) -> Call {
    Call::Column(library, LARGE_ROWS)
}

fn loss(library: Library) -> Call {
    Call::Loss(library, tranche_of(4_000, 1_000, 3_000))
}

fn losses(library: Library, count: u32, records: [Tranche; TRANCHES]) -> Call {
    Call::Losses(library, Tranches { count, records })
}

// ---- pools

fn between(rt: &impl Print, call: Call, assets: u32) -> io::Result<()> {
    run_each(
        rt,
        call,
        &[
            (assets, 1_000, 3_000),
            (assets, 5_000, 0),
            (assets, 5_000, 5_000),
            (assets, 2, 9_998),
        ],
    )
}

fn pools_by(rt: &impl Print, library: Library, assets: u32) -> io::Result<()> {
    corners(rt, column(library), assets)?;
    between(rt, column(library), assets)?;
    between(rt, loss(library), assets)?;
    between(rt, losses(library, 8, spread()), assets)
}

fn all_pools(rt: &impl Print, assets: u32) -> io::Result<()> {
    between(rt, Call::Fill, assets)?;
    pools_by(rt, Library::Pool, assets)?;
    pools_by(rt, Library::BetaBinomial, assets)
}

// ---- refusals

// More than 100 assets, and nothing else wrong; then everything. Then 100 assets with one thing right after the other.
fn order(rt: &impl Print, call: Call) -> io::Result<()> {
    run(rt, call, pool(101), whole())?;
    run(rt, call, pool(0xffff_ffff), whole())?;
    run(rt, call, pool_of(101, 10_001, 10_001), alike(0))?;
    run(rt, call, pool_of(100, 10_001, 10_001), alike(0))?;
    run(rt, call, pool_of(100, 1_000, 10_001), alike(0))?;
    run(rt, call, pool_of(100, 1_000, 10_000), alike(0))?;
    run(rt, call, pool(100), alike(0))?;
    run(rt, call, pool(100), whole())
}

fn order_by(rt: &impl Print, library: Library) -> io::Result<()> {
    order(rt, Call::Column(library, 100))?;
    order(rt, Call::Loss(library, REFUSED))?;
    order(rt, losses(library, 0, [REFUSED; TRANCHES]))?;
    order(rt, losses(library, 9, spread()))?;
    order(rt, losses(library, 8, spread()))
}

fn refusals(rt: &impl Print) -> io::Result<()> {
    order(rt, Call::Fill)?;
    order_by(rt, Library::Pool)?;
    order_by(rt, Library::BetaBinomial)?;
    row(rt, 101, 0, 5_156)?;
    row(rt, 101, 102, 5_156)?;
    row(rt, 101, 0, 0)?;
    row(rt, 100, 101, 5_150)
}

// ---- lengths

fn store_lengths(
    rt: &impl Print,
    call: Call,
    pool: Pool,
    exact: usize,
    short: usize,
) -> io::Result<()>
    requires { exact ≤ 5151 }
{
    exact_lengths(rt, call, pool, exact, short)?;
    longer_lengths(rt, call, pool, exact)
}

// A column that fits, and one place short.
fn beta_lengths(rt: &impl Print, pool: Pool, rows: usize) -> io::Result<()>
    requires { 1 ≤ rows }
{
    run_ample(rt, Call::Column(Library::BetaBinomial, rows), pool)?;
    run_ample(rt, Call::Column(Library::BetaBinomial, rows - 1), pool)
}

fn lengths(rt: &impl Print, assets: u32, exact: usize, short: usize, rows: usize) -> io::Result<()>
    requires { (assets ≤ 100) × ((exact ≤ 5151) × ((1 ≤ rows) × (rows ≤ 101))) }
{
    let eight = losses(Library::Pool, 8, spread());
    store_lengths(rt, Call::Fill, pool(assets), exact, short)?;
    store_lengths(rt, eight, pool(assets), exact, short)?;
    list_lengths(rt, column(Library::Pool), assets, exact, short, rows)?;
    beta_lengths(rt, pool(assets), rows)?;
    rows_of(rt, assets, exact, short)
}

// ---- stores

// A row of a store for 100 assets, read as that of a pool with so many.
fn row_of(rt: &impl Print, assets: u32, k: u32) -> io::Result<()> {
    run_over(rt, pool(100), Call::Row(k), pool(assets))
}

fn smaller_stores(rt: &impl Print) -> io::Result<()> {
    for (assets, k) in [
        (1, 1),
        (64, 0),
        (64, 64),
        (64, 65),
        (65, 65),
        (99, 99),
        (99, 100),
        (101, 0),
    ] {
        row_of(rt, assets, k)?;
    }
    Ok(())
}

// Over what pools of 100 assets left.
fn over_hundred(rt: &impl Print, call: Call) -> io::Result<()> {
    run_over(rt, pool_of(100, 500, 250), call, pool(3))?;
    run_over(rt, pool_of(100, 500, 250), call, pool(64))?;
    run_over(rt, pool_of(100, 500, 250), call, pool(65))?;
    run_over(rt, pool_of(100, 10_000, 10_000), call, pool(100))?;
    run_over(rt, pool_of(100, 500, 250), call, pool(101))
}

fn over(rt: &impl Print, call: Call) -> io::Result<()> {
    over_others(rt, call, pool(100))?;
    over_hundred(rt, call)
}

fn stores(rt: &impl Print) -> io::Result<()> {
    filled_rows(rt, pool(100), 102)?;
    smaller_stores(rt)?;
    over(rt, Call::Fill)?;
    over(rt, column(Library::Pool))
}

// ---- the last digits

fn digit(
    rt: &impl Print,
    library: Library,
    assets: u32,
    probability: u32,
    correlation: u32,
) -> io::Result<()> {
    let pool = [(assets, probability, correlation)];
    run_each(rt, column(library), &pool)?;
    run_each(rt, loss(library), &pool)
}

fn digits(rt: &impl Print) -> io::Result<()> {
    // Counts of orders by sums would give another unit, and change both bounds of the loss.
    digit(rt, Library::Pool, 64, 1_100, 2_800)?;
    // Counts that are worked out exactly would.
    digit(rt, Library::Pool, 65, 1_600, 1_500)?;
    digit(rt, Library::Pool, 70, 5_800, 500)?;
    digit(rt, Library::BetaBinomial, 83, 3_600, 2_900)?;
    digit(rt, Library::BetaBinomial, 99, 5_300, 2_300)?;
    digit(rt, Library::Pool, 100, 5_200, 1_400)
}

// ---- losses around 2^−800

// For 65 assets: a few kept numbers above it, on both sides of it, and below it, twice each; far below it, and far above it.
fn around_65() -> [Tranche; TRANCHES] {
    [
        tranche_of(6_633, 3_145, 9_824),
        tranche_of(8_755, 1_152, 8_546),
        tranche_of(8_499, 1_396, 7_096),
        tranche_of(8_627, 1_274, 7_821),
        tranche_of(9_072, 858, 6_676),
        tranche_of(7_779, 2_069, 8_984),
        tranche_of(0, 9_999, 10_000),
        tranche_of(0, 0, 10_000),
    ]
}

// The same for 100 assets.
fn around_100() -> [Tranche; TRANCHES] {
    [
        tranche_of(7_752, 1_482, 7_970),
        tranche_of(8_853, 755, 8_553),
        tranche_of(9_131, 572, 6_517),
        tranche_of(6_906, 2_040, 9_919),
        tranche_of(9_386, 403, 9_049),
        tranche_of(8_030, 1_299, 5_934),
        tranche_of(0, 9_999, 10_000),
        tranche_of(0, 0, 10_000),
    ]
}

fn edges(rt: &impl Print) -> io::Result<()> {
    run_each(rt, losses(Library::Pool, 8, around_65()), &[(65, 1, 0)])?;
    run_each(rt, losses(Library::Pool, 8, around_100()), &[(100, 1, 0)])
}

fn main(rt: HostRuntime) -> io::Result<()> {
    for assets in [64, 65, 99, 100] {
        all_pools(&rt, assets)?;
    }
    refusals(&rt)?;
    lengths(&rt, 65, 2_211, 2_210, 66)?;
    lengths(&rt, 99, 5_050, 5_049, 100)?;
    lengths(&rt, 100, 5_151, 5_150, 101)?;
    stores(&rt)?;
    digits(&rt)?;
    edges(&rt)?;
    random_cases(100, |word| large_case(&rt, word))
}
