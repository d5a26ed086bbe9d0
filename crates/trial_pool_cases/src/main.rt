// Runs each call at the edges of what it accepts, and where a last digit decides, a line for each case. tools/trial_pool_cases.py
// works the same lines out in exact whole numbers.
#![tactic(auto)]

ghost use Rattle.std.specs.Prelude.{◌≤◌};

use pool::Pool;
use std::io;
use trial_inputs::edges::{
    exact_lengths, later_ends, lists, longer_lengths, no_places, over_others, rows_of,
};
use trial_lines::tranches::tranche_of;
use trial_lines::{Call, Library, ROWS, alike, pool_of};
use trial_pool::{row, run, run_each, run_losses, run_over};

// ---- the fill

fn fill_pools(rt: &impl Print) -> io::Result<()> {
    run_each(
        rt,
        Call::Fill,
        &[
            (3, 1_000, 3_000),
            (0, 1_000, 3_000),
            (1, 1_000, 3_000),
            (64, 1_000, 3_000),
            (101, 1_000, 3_000),
            (0xffff_ffff, 1_000, 3_000),
            (3, 10_000, 3_000),
            (3, 10_001, 3_000),
            (3, 0xffff_ffff, 3_000),
            (3, 1_000, 10_000),
            (3, 1_000, 10_001),
            (3, 1_000, 0xffff_ffff),
            (64, 10_000, 3_000),
            (101, 10_001, 3_000),
            (0, 10_001, 10_001),
            (3, 10_001, 10_001),
        ],
    )
}

fn fill_ends(rt: &impl Print, assets: u32) -> io::Result<()> {
    run_each(rt, Call::Fill, &[(assets, 0, 0), (assets, 0, 3_000)])?;
    later_ends(rt, Call::Fill, assets)
}

fn fill_lengths(rt: &impl Print, assets: u32, exact: usize, short: usize) -> io::Result<()>
    requires { exact ≤ 5151 }
{
    let pool = pool_of(assets, 1_000, 3_000);
    exact_lengths(rt, Call::Fill, pool, exact, short)?;
    longer_lengths(rt, Call::Fill, pool, exact)
}

fn fills(rt: &impl Print) -> io::Result<()> {
    fill_pools(rt)?;
    fill_ends(rt, 1)?;
    fill_ends(rt, 2)?;
    fill_ends(rt, 64)?;
    fill_lengths(rt, 1, 3, 2)?;
    fill_lengths(rt, 3, 10, 9)?;
    fill_lengths(rt, 64, 2_145, 2_144)?;
    no_places(rt, Call::Fill)?;
    run(rt, Call::Fill, pool_of(3, 1_000, 3_000), alike(0))
}

// ---- a row

fn rows(rt: &impl Print) -> io::Result<()> {
    rows_of(rt, 1, 3, 2)?;
    rows_of(rt, 3, 10, 9)?;
    rows_of(rt, 64, 2_145, 2_144)?;
    row(rt, 3, 2, 10)?;
    row(rt, 64, 63, 2_145)?;
    row(rt, 0, 0, 2_145)?;
    row(rt, 0, 0, 0)?;
    row(rt, 101, 0, 2_150)?;
    row(rt, 101, 102, 0)?;
    row(rt, 0xffff_ffff, 0xffff_ffff, 0)?;
    row(rt, 64, 0xffff_ffff, 2_145)
}

// Row k of the pool's own store.
fn filled_row(rt: &impl Print, pool: Pool, k: u32) -> io::Result<()> {
    run_over(rt, pool, Call::Row(k), pool)
}

fn filled_rows(rt: &impl Print) -> io::Result<()> {
    let three = pool_of(3, 1_000, 3_000);
    filled_row(rt, three, 0)?;
    filled_row(rt, three, 2)?;
    filled_row(rt, three, 3)?;
    filled_row(rt, three, 4)?;
    filled_row(rt, pool_of(64, 1_000, 3_000), 64)
}

// ---- the tranche loss

// Tranches of the pool with 3 assets, probability 1,000 and correlation 3,000.
fn loss_tranches(rt: &impl Print) -> io::Result<()> {
    let three = (3, 1_000, 3_000);
    run_losses(
        rt,
        Library::Pool,
        &[
            (three, (4_000, 1_000, 3_000)),
            (three, (4_000, 0, 6_000)),
            (three, (4_000, 6_000, 10_000)),
            (three, (0, 0, 10_000)),
            (three, (10_000, 0, 10_000)),
            (three, (10_001, 0, 10_000)),
            (three, (4_000, 0, 10_001)),
            (three, (4_000, 3_000, 3_000)),
            (three, (4_000, 2_999, 3_000)),
            (three, (4_000, 3_001, 3_000)),
            (three, (4_000, 0, 1)),
            (three, (4_000, 0, 0)),
            (three, (4_000, 10_000, 10_000)),
            (three, (4_000, 9_999, 10_000)),
            (three, (10_001, 10_001, 10_001)),
            (three, (4_000, 10_001, 10_001)),
            (three, (0xffff_ffff, 0xffff_ffff, 0xffff_ffff)),
            (three, (4_000, 0xffff_ffff, 0)),
        ],
    )
}

fn loss_pools(rt: &impl Print) -> io::Result<()> {
    run_losses(
        rt,
        Library::Pool,
        &[
            ((64, 1, 0), (0, 9_999, 10_000)),
            ((61, 1, 0), (6_337, 3_596, 6_423)),
            ((61, 1, 0), (0, 9_999, 10_000)),
            ((60, 1, 0), (0, 9_999, 10_000)),
            ((64, 0, 3_000), (0, 0, 10_000)),
            ((64, 10_000, 3_000), (4_000, 0, 10_000)),
            ((64, 1_000, 10_000), (0, 9_999, 10_000)),
            ((1, 0, 3_000), (0, 0, 10_000)),
            ((1, 10_000, 0), (0, 0, 10_000)),
            ((0, 1_000, 3_000), (10_001, 0, 10_000)),
            ((101, 1_000, 3_000), (4_000, 0, 10_000)),
            ((3, 10_001, 3_000), (10_001, 0, 10_000)),
            ((3, 1_000, 10_001), (10_001, 0, 10_000)),
        ],
    )
}

// The loss of a tranche with recovery 4,000 up to 3,000.
fn loss_from(lower: u32) -> Call {
    Call::Loss(Library::Pool, tranche_of(4_000, lower, 3_000))
}

fn loss_lengths(rt: &impl Print, assets: u32, exact: usize, short: usize) -> io::Result<()>
    requires { exact ≤ 5151 }
{
    let pool = pool_of(assets, 1_000, 3_000);
    exact_lengths(rt, loss_from(1_000), pool, exact, short)?;
    longer_lengths(rt, loss_from(1_000), pool, exact)?;
    run(rt, loss_from(3_000), pool, alike(short))
}

fn losses(rt: &impl Print) -> io::Result<()> {
    loss_tranches(rt)?;
    loss_pools(rt)?;
    loss_lengths(rt, 1, 3, 2)?;
    loss_lengths(rt, 3, 10, 9)?;
    loss_lengths(rt, 64, 2_145, 2_144)?;
    let three = pool_of(3, 1_000, 3_000);
    over_others(rt, loss_from(1_000), three)?;
    run_over(rt, pool_of(10, 500, 250), loss_from(3_000), three)
}

// ---- the last digits

fn columns(rt: &impl Print) -> io::Result<()> {
    run_each(
        rt,
        Call::Column(Library::Pool, ROWS),
        &[
            // A tail added from k up would have another unit, and so would certainty less the other chances.
            (5, 8_200, 3_850),
            (9, 8_500, 5_700),
            (10, 6_250, 3_400),
            (12, 5_350, 5_100),
            (16, 6_100, 7_350),
            (20, 7_600, 5_000),
            (28, 6_600, 2_500),
            (35, 7_300, 5_900),
            (48, 8_500, 1_300),
            (53, 8_500, 4_700),
            (62, 7_900, 4_200),
            (64, 9_600, 2_800),
            // The exact count of orders times the entry, rounded once, would give another unit.
            (40, 3_400, 1_600),
            (47, 6_700, 1_300),
            (54, 4_400, 4_100),
            (64, 5_800, 2_500),
        ],
    )
}

// The same of losses: both bounds would change.
fn last_bits(rt: &impl Print) -> io::Result<()> {
    run_losses(
        rt,
        Library::Pool,
        &[
            ((37, 4_000, 1_000), (0, 3_000, 6_000)),
            ((39, 4_500, 0), (6_000, 300, 700)),
            ((41, 7_000, 5_000), (6_000, 1_000, 3_000)),
            ((43, 2_500, 8_000), (2_500, 1_000, 2_000)),
            ((46, 5_500, 1_000), (3_500, 1_500, 1_600)),
            ((48, 3_000, 2_000), (5_000, 2_000, 4_000)),
            ((50, 8_000, 500), (4_000, 1_000, 3_000)),
            ((53, 3_500, 100), (5_000, 0, 1_000)),
            ((56, 6_000, 0), (2_500, 5_000, 10_000)),
            ((59, 5_000, 3_000), (0, 0, 10_000)),
            ((62, 2_000, 3_000), (3_500, 0, 300)),
            ((64, 6_500, 50), (4_000, 2_000, 4_000)),
        ],
    )
}

// ---- losses around 2^−800

fn edges(rt: &impl Print) -> io::Result<()> {
    run_losses(
        rt,
        Library::Pool,
        &[
            // The low side is 2^−800, then a few kept numbers above it: shown.
            ((64, 1, 0), (2_845, 6_731, 9_192)),
            ((64, 1, 0), (4_583, 5_096, 6_959)),
            ((61, 1, 0), (8_748, 1_216, 7_510)),
            // The low side is a few kept numbers below it, then the high side a few above it: faint with the high bound.
            ((64, 1, 0), (4_786, 4_905, 6_699)),
            ((62, 1, 0), (9_056, 913, 7_827)),
            ((61, 1, 0), (2_928, 6_950, 9_417)),
            ((64, 1, 0), (3_023, 6_563, 8_978)),
            // The high side is a few kept numbers below it: faint with 2^−800.
            ((64, 1, 0), (8_871, 1_062, 1_453)),
            ((61, 1, 0), (8_816, 1_157, 4_244)),
            // The low side is between 2^−800 and 2^−799, then between 2^−801 and 2^−800.
            ((60, 1, 0), (5_000, 4_950, 5_200)),
            ((64, 1, 0), (5_000, 4_700, 6_000)),
            ((60, 1, 0), (5_000, 4_950, 5_400)),
            ((64, 1, 0), (5_000, 4_700, 8_000)),
        ],
    )
}

fn main(rt: HostRuntime) -> io::Result<()> {
    fills(&rt)?;
    rows(&rt)?;
    filled_rows(&rt)?;
    lists(&rt, Call::Column(Library::Pool, ROWS))?;
    losses(&rt)?;
    columns(&rt)?;
    last_bits(&rt)?;
    edges(&rt)
}
