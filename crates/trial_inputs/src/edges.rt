// Cases at the edges of what every call accepts, and of those that leave a list of entries 0 to n in a slice.
ghost use Rattle.std.specs.Prelude.{◌≤◌};

use grounds::Lengths;
use pool::Pool;
use std::io;
use trial_lines::{Call, alike, pool_of};
use trial_pool::{beyond, row, run, run_ample, run_each, run_over};

// A store that fits, and each slice one place short in turn.
pub fn exact_lengths(
    rt: &impl Print,
    call: Call,
    pool: Pool,
    exact: usize,
    short: usize,
) -> io::Result<()> {
    let exact = alike(exact);
    run(rt, call, pool, exact)?;
    for lengths in [
        Lengths {
            low_significands: short,
            ..exact
        },
        Lengths {
            high_significands: short,
            ..exact
        },
        Lengths {
            low_exponents: short,
            ..exact
        },
        Lengths {
            high_exponents: short,
            ..exact
        },
    ] {
        run(rt, call, pool, lengths)?;
    }
    Ok(())
}

pub fn longer_lengths(rt: &impl Print, call: Call, pool: Pool, exact: usize) -> io::Result<()>
    requires { exact ≤ 5151 }
{
    run(
        rt,
        call,
        pool,
        Lengths {
            low_significands: exact + 1,
            high_significands: exact + 2,
            low_exponents: exact + 3,
            high_exponents: exact + 5,
        },
    )
}

// Probability and correlation at their ends, but for 0 and 0.
pub fn later_ends(rt: &impl Print, call: Call, assets: u32) -> io::Result<()> {
    run_each(
        rt,
        call,
        &[
            (assets, 0, 10_000),
            (assets, 5_000, 0),
            (assets, 5_000, 10_000),
            (assets, 10_000, 0),
            (assets, 10_000, 10_000),
        ],
    )
}

const ENDS: [u32; 4] = [0, 1, 9_999, 10_000];

// A correlation at and next to its ends.
fn correlations(rt: &impl Print, call: Call, assets: u32, probability: u32) -> io::Result<()> {
    for correlation in ENDS {
        run_ample(rt, call, pool_of(assets, probability, correlation))?;
    }
    Ok(())
}

// And a probability.
pub fn corners(rt: &impl Print, call: Call, assets: u32) -> io::Result<()> {
    for probability in ENDS {
        correlations(rt, call, assets, probability)?;
    }
    Ok(())
}

// No places at all: where several grounds apply, the first is given.
pub fn no_places(rt: &impl Print, call: Call) -> io::Result<()> {
    run(rt, call, pool_of(beyond(call), 1_000, 3_000), alike(0))?;
    run(rt, call, pool_of(3, 10_001, 3_000), alike(0))?;
    run(rt, call, pool_of(3, 1_000, 10_001), alike(0))
}

// The outcome does not depend on what the slices held, and the places behind the store keep it.
pub fn over_others(rt: &impl Print, call: Call, pool: Pool) -> io::Result<()> {
    run_over(rt, pool_of(10, 500, 250), call, pool)?;
    run_over(rt, pool_of(2, 500, 250), call, pool)?;
    run_over(rt, pool_of(64, 10_000, 10_000), call, pool)
}

// ---- a row

pub fn rows_of(rt: &impl Print, n: u32, exact: usize, short: usize) -> io::Result<()>
    requires { (n ≤ 100) × (exact ≤ 5151) }
{
    row(rt, n, 0, exact)?;
    row(rt, n, 1, exact + 5)?;
    row(rt, n, n, exact)?;
    row(rt, n, n + 1, exact)?;
    row(rt, n, n, short)?;
    row(rt, n, n + 1, short)
}

// ---- a call that leaves a list of entries 0 to n in a slice

// The call with so many places for the list.
fn with_places(call: Call, places: usize) -> Call {
    match call {
        Call::Column(library, _) => Call::Column(library, places),
        Call::Shifts(_) => Call::Shifts(places),
        _ => call,
    }
}

pub fn list_pools(rt: &impl Print, call: Call) -> io::Result<()> {
    let many = beyond(call);
    run_each(
        rt,
        call,
        &[
            (3, 1_000, 3_000),
            (0, 1_000, 3_000),
            (64, 1_000, 3_000),
            (many, 1_000, 3_000),
            (3, 10_001, 3_000),
            (3, 1_000, 10_001),
            (many, 10_001, 10_001),
            (3, 10_001, 10_001),
        ],
    )
}

fn list_ends(rt: &impl Print, call: Call, assets: u32) -> io::Result<()> {
    run_ample(rt, call, pool_of(assets, 0, 0))?;
    later_ends(rt, call, assets)
}

// Also a list one place short, alone and with a slice, and longer.
pub fn list_lengths(
    rt: &impl Print,
    call: Call,
    assets: u32,
    exact: usize,
    short: usize,
    entries: usize,
) -> io::Result<()>
    requires { (exact ≤ 5151) × ((1 ≤ entries) × (entries ≤ 101)) }
{
    let pool = pool_of(assets, 1_000, 3_000);
    let short_list = with_places(call, entries - 1);
    exact_lengths(rt, with_places(call, entries), pool, exact, short)?;
    run(rt, short_list, pool, alike(exact))?;
    run(
        rt,
        short_list,
        pool,
        Lengths {
            high_exponents: short,
            ..alike(exact)
        },
    )?;
    longer_lengths(rt, with_places(call, entries + 5), pool, exact)
}

// Tails of Moody's model that are exactly half way between two units on the low side; then two whose low side is below that.
pub fn list_half_way(rt: &impl Print, call: Call) -> io::Result<()> {
    run_each(
        rt,
        call,
        &[
            (2, 1_250, 0),
            (2, 2_500, 2_500),
            (2, 5_000, 625),
            (2, 5_000, 9_375),
            (2, 8_750, 0),
            (3, 2_500, 0),
            (3, 5_000, 5_000),
            (5, 2_500, 0),
            (5, 7_500, 0),
            (6, 5_000, 0),
            (10, 5_000, 0),
            (2, 50, 0),
            (2, 1_150, 0),
        ],
    )
}

// If it is lent a store.
pub fn lists(rt: &impl Print, call: Call) -> io::Result<()> {
    list_pools(rt, call)?;
    list_ends(rt, call, 1)?;
    list_ends(rt, call, 20)?;
    list_lengths(rt, call, 1, 3, 2, 2)?;
    list_lengths(rt, call, 3, 10, 9, 4)?;
    list_lengths(rt, call, 64, 2_145, 2_144, 65)?;
    no_places(rt, with_places(call, 0))?;
    over_others(rt, call, pool_of(3, 1_000, 3_000))?;
    run_over(
        rt,
        pool_of(10, 500, 250),
        call,
        pool_of(beyond(call), 1_000, 3_000),
    )?;
    list_half_way(rt, call)
}
