// Runs the loss call of each library on up to eight tranches: counts, each ground of a tranche at each place, two grounds at once,
// the order of all grounds, pools, orders of the tranches, records past the count, lengths of the store, and random tranches, a line
// for each case. tools/trial_tranches.py works the same lines out in exact whole numbers.
#![tactic(auto)]

ghost use Rattle.std.specs.Prelude.{◌≤◌, ◌<◌};

use pool::{Pool, TRANCHES, Tranche};
use std::io;
use trial_inputs::edges::{exact_lengths, longer_lengths, over_others};
use trial_inputs::random::{losses_case, random_cases};
use trial_lines::tranches::{REFUSED, Tranches, spread, tranche_of};
use trial_lines::{Call, Library, alike, pool_of};
use trial_pool::{run, run_ample, run_each, run_over};

type Records = [Tranche; TRANCHES];

fn losses(library: Library, count: u32, records: Records) -> Call {
    Call::Losses(library, Tranches { count, records })
}

fn pool(assets: u32) -> Pool {
    pool_of(assets, 1_000, 3_000)
}

fn three(rt: &impl Print, library: Library, count: u32, records: Records) -> io::Result<()> {
    run_ample(rt, losses(library, count, records), pool(3))
}

fn without_places(
    rt: &impl Print,
    library: Library,
    count: u32,
    records: Records,
    pool: Pool,
) -> io::Result<()> {
    run(rt, losses(library, count, records), pool, alike(0))
}

// For 64 assets, probability 1 and correlation 0: four losses around 2^−800, one far below it twice, one far above it, and 0.
fn faint() -> Records {
    [
        tranche_of(0, 9_999, 10_000),
        tranche_of(4_786, 4_905, 6_699),
        tranche_of(0, 0, 10_000),
        tranche_of(8_871, 1_062, 1_453),
        tranche_of(10_000, 0, 10_000),
        tranche_of(2_845, 6_731, 9_192),
        tranche_of(0, 9_999, 10_000),
        tranche_of(3_023, 6_563, 8_978),
    ]
}

// Tranches that one ground refuses: 4, then 5, then 6.
const BY_ONE: [Tranche; 3] = [
    Tranche {
        recovery: 10_001,
        lower: 0,
        upper: 10_000,
    },
    Tranche {
        recovery: 4_000,
        lower: 0,
        upper: 10_001,
    },
    Tranche {
        recovery: 4_000,
        lower: 3_000,
        upper: 3_000,
    },
];

// ---- counts

fn counts(rt: &impl Print, library: Library) -> io::Result<()> {
    for count in [0, 1, 2, 7, 8, 9, 0xffff_ffff] {
        three(rt, library, count, spread())?;
    }
    Ok(())
}

// ---- a ground at each place

fn put(records: &mut [Tranche; TRANCHES], place: usize, tranche: Tranche) {
    if let Some(record) = records.get_mut(place) {
        *record = tranche;
    }
}

fn at_place(
    rt: &impl Print,
    library: Library,
    count: u32,
    place: usize,
    tranche: Tranche,
) -> io::Result<()> {
    let mut records = spread();
    put(&mut records, place, tranche);
    three(rt, library, count, records)
}

fn each_place(rt: &impl Print, library: Library, count: u32, tranche: Tranche) -> io::Result<()> {
    for place in 0..TRANCHES {
        at_place(rt, library, count, place, tranche)?;
    }
    Ok(())
}

// Within the count, and past it.
fn wrong_places(rt: &impl Print, library: Library, tranche: Tranche) -> io::Result<()> {
    each_place(rt, library, 1, tranche)?;
    each_place(rt, library, 4, tranche)?;
    each_place(rt, library, 8, tranche)
}

// Each ground on both sides of its edge.
fn places(rt: &impl Print, library: Library) -> io::Result<()> {
    for tranche in BY_ONE {
        wrong_places(rt, library, tranche)?;
    }
    wrong_places(rt, library, tranche_of(4_000, 3_001, 3_000))?;
    each_place(rt, library, 8, tranche_of(10_000, 0, 10_000))?;
    each_place(rt, library, 8, tranche_of(0, 9_999, 10_000))?;
    each_place(rt, library, 8, tranche_of(4_000, 2_999, 3_000))
}

// ---- two grounds at once

fn two_in_one(rt: &impl Print, library: Library, place: usize) -> io::Result<()> {
    let most = 0xffff_ffff;
    for tranche in [
        tranche_of(10_001, 0, 10_001),
        tranche_of(10_001, 3_000, 3_000),
        tranche_of(4_000, 10_001, 10_001),
        REFUSED,
        tranche_of(most, most, most),
    ] {
        at_place(rt, library, 8, place, tranche)?;
    }
    Ok(())
}

// One tranche, and another behind it by each ground.
fn before_each(
    rt: &impl Print,
    library: Library,
    tranche: Tranche,
    first: usize,
    second: usize,
) -> io::Result<()> {
    let mut records = spread();
    put(&mut records, first, tranche);
    for other in BY_ONE {
        put(&mut records, second, other);
        three(rt, library, 8, records)?;
    }
    Ok(())
}

fn two_places(rt: &impl Print, library: Library, first: usize, second: usize) -> io::Result<()> {
    for tranche in BY_ONE {
        before_each(rt, library, tranche, first, second)?;
    }
    Ok(())
}

fn two_wrong(rt: &impl Print, library: Library) -> io::Result<()> {
    two_in_one(rt, library, 0)?;
    two_in_one(rt, library, 3)?;
    two_in_one(rt, library, 7)?;
    two_places(rt, library, 0, 1)?;
    two_places(rt, library, 2, 5)?;
    two_places(rt, library, 6, 7)
}

// ---- the order of the grounds

// The count wrong, then also every tranche, and no places; every tranche wrong and no places; no places, also with a wrong count.
fn order_in(rt: &impl Print, library: Library, pool: Pool) -> io::Result<()> {
    let refused = [REFUSED; TRANCHES];
    run_ample(rt, losses(library, 0, spread()), pool)?;
    run_ample(rt, losses(library, 9, spread()), pool)?;
    without_places(rt, library, 0, refused, pool)?;
    without_places(rt, library, 9, refused, pool)?;
    without_places(rt, library, 1, refused, pool)?;
    without_places(rt, library, 9, spread(), pool)?;
    without_places(rt, library, 8, spread(), pool)
}

// A tranche that one ground refuses, with a count that 13 refuses, and with no places.
fn order_of(rt: &impl Print, library: Library, tranche: Tranche) -> io::Result<()> {
    at_place(rt, library, 0, 0, tranche)?;
    at_place(rt, library, 9, 0, tranche)?;
    let mut records = spread();
    records[7] = tranche;
    without_places(rt, library, 8, records, pool(3))
}

fn order(rt: &impl Print, library: Library) -> io::Result<()> {
    for (assets, probability, correlation) in [
        (0, 1_000, 3_000),
        (101, 1_000, 3_000),
        (21, 1_000, 3_000),
        (64, 1_000, 10_000),
        (3, 10_001, 3_000),
        (3, 1_000, 10_001),
        (3, 1_000, 10_000),
        (0, 10_001, 10_001),
        (3, 1_000, 3_000),
    ] {
        order_in(rt, library, pool_of(assets, probability, correlation))?;
    }
    for tranche in BY_ONE {
        order_of(rt, library, tranche)?;
    }
    Ok(())
}

// ---- lengths of the store

// Also on the stores of other pools, which a refusal leaves.
fn lengths(
    rt: &impl Print,
    library: Library,
    assets: u32,
    exact: usize,
    short: usize,
) -> io::Result<()>
    requires { exact ≤ 5151 }
{
    let call = losses(library, 8, spread());
    let other = pool_of(10, 500, 250);
    exact_lengths(rt, call, pool(assets), exact, short)?;
    longer_lengths(rt, call, pool(assets), exact)?;
    over_others(rt, call, pool(assets))?;
    run_over(rt, other, losses(library, 9, spread()), pool(assets))?;
    let mut records = spread();
    records[7] = BY_ONE[2];
    run_over(rt, other, losses(library, 8, records), pool(assets))
}

// ---- pools and orders

fn pools(rt: &impl Print, library: Library, assets: u32) -> io::Result<()> {
    run_each(
        rt,
        losses(library, 8, spread()),
        &[
            (assets, 1_000, 3_000),
            (assets, 0, 0),
            (assets, 0, 10_000),
            (assets, 1, 1),
            (assets, 5_000, 0),
            (assets, 5_000, 10_000),
            (assets, 10_000, 1),
            (assets, 10_000, 10_000),
        ],
    )?;
    run_each(
        rt,
        losses(library, 8, faint()),
        &[(assets, 1, 0), (assets, 1_000, 3_000)],
    )
}

fn all_pools(rt: &impl Print, library: Library) -> io::Result<()> {
    for assets in [1, 3, 20, 21, 64] {
        pools(rt, library, assets)?;
    }
    Ok(())
}

fn reversed(records: Records) -> Records {
    let mut changed = records;
    changed.reverse();
    changed
}

fn rotated(records: Records) -> Records {
    let mut changed = records;
    changed.rotate_left(3);
    changed
}

// The same tranches in three orders; then one of them at every place.
fn orders(rt: &impl Print, library: Library, records: Records, pool: Pool) -> io::Result<()> {
    run_ample(rt, losses(library, 8, records), pool)?;
    run_ample(rt, losses(library, 8, reversed(records)), pool)?;
    run_ample(rt, losses(library, 8, rotated(records)), pool)?;
    run_ample(rt, losses(library, 8, [records[0]; TRANCHES]), pool)
}

fn all_orders(rt: &impl Print, library: Library) -> io::Result<()> {
    orders(rt, library, spread(), pool(3))?;
    orders(rt, library, spread(), pool_of(20, 500, 1_000))?;
    orders(rt, library, faint(), pool_of(64, 1, 0))
}

// ---- records past the count

// Each count twice, the second time with records past it that would be refused.
fn past(rt: &impl Print, library: Library) -> io::Result<()> {
    let mut records = spread();
    for i in 1..TRANCHES {
        let count = TRANCHES - i;
        records[count] = REFUSED;
        three(rt, library, count as u32, spread())?;
        three(rt, library, count as u32, records)?;
    }
    Ok(())
}

fn cases(rt: &impl Print, library: Library) -> io::Result<()> {
    counts(rt, library)?;
    places(rt, library)?;
    two_wrong(rt, library)?;
    order(rt, library)?;
    all_pools(rt, library)?;
    all_orders(rt, library)?;
    past(rt, library)
}

fn main(rt: HostRuntime) -> io::Result<()> {
    for library in [Library::Pool, Library::Screen, Library::BetaBinomial] {
        cases(&rt, library)?;
    }
    lengths(&rt, Library::Pool, 1, 3, 2)?;
    lengths(&rt, Library::Pool, 3, 10, 9)?;
    lengths(&rt, Library::Pool, 20, 231, 230)?;
    lengths(&rt, Library::Pool, 64, 2_145, 2_144)?;
    lengths(&rt, Library::Screen, 1, 3, 2)?;
    lengths(&rt, Library::Screen, 20, 231, 230)?;
    lengths(&rt, Library::Screen, 21, 253, 252)?;
    random_cases(150, |word| losses_case(&rt, word))
}
