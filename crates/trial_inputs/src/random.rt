// Random pools, tranches and layers.
use pool::{Pool, TRANCHES, Tranche};
use std::io;
use trial_lines::tranches::{Tranches, tranche_of};
use trial_lines::{Call, LARGE_ROWS, Library, ROWS, pool_of};
use trial_pool::{BEYOND, BEYOND_REPORT, run_ample};
use trial_support::{START, next};

// The random word so many words later.
fn after(word: u64, count: u32) -> u64 {
    let mut later = word;
    for _ in 0..count {
        later = next(later);
    }
    later
}

// Basis points: one in eight above 10,000, three in eight at 0, 1 or 10,000, and small numbers more often than by chance.
fn basis_points(word: u64) -> u32 {
    let rest = word >> 8;
    match word % 16 {
        0..2 => 0,
        2..4 => 1,
        4..6 => 10_000,
        6 => 10_001,
        7 => (10_001 + rest % 4_000_000_000) as u32,
        8..12 => (rest % 400) as u32,
        _ => (rest % 10_001) as u32,
    }
}

// One in eight 0 or the number that is given, one in four from 60 to 64, one in eight from 1 to 64; else from 1 to 20.
fn assets(word: u64, beyond: u32) -> u32 {
    let rest = word >> 8;
    match word % 16 {
        0 => 0,
        1 => beyond,
        2..6 => (60 + rest % 5) as u32,
        6..8 => (1 + rest % 64) as u32,
        _ => (1 + rest % 20) as u32,
    }
}

// Every second large pool has probability 1 and correlation 0: the losses of its highest tranches are about 2^−800.
fn random_pool(word: u64, beyond: u32) -> Pool {
    let assets = assets(word, beyond);
    let second = next(word);
    if assets > 55 && second % 2 == 0 {
        return pool_of(assets, 1, 0);
    }
    pool_of(assets, basis_points(second), basis_points(next(second)))
}

// Of 1 to 20 assets.
fn small_pool(word: u64) -> Pool {
    let second = next(word);
    let assets = (1 + (word >> 8) % 20) as u32;
    pool_of(assets, basis_points(second), basis_points(next(second)))
}

// Of 65 to 100 assets, with probability and correlation brought into range.
fn large_pool(word: u64) -> Pool {
    let second = next(word);
    pool_of(
        (65 + (word >> 8) % 36) as u32,
        basis_points(second) % 10_001,
        basis_points(next(second)) % 10_001,
    )
}

// Every second the narrowest below the largest loss, if that is not 0; else two attachments that do not depend on each other.
fn random_tranche(word: u64) -> Tranche {
    let recovery = basis_points(word);
    let second = next(word);
    if second % 2 == 0 && recovery < 10_000 {
        return tranche_of(recovery, 9_999 - recovery, 10_000 - recovery);
    }
    let third = next(second);
    tranche_of(recovery, basis_points(third), basis_points(next(third)))
}

// Fifteen in sixteen brought into range.
fn likely_tranche(word: u64) -> Tranche {
    let tranche = random_tranche(word);
    if word >> 60 == 0 {
        return tranche;
    }
    let recovery = tranche.recovery % 10_001;
    let upper = tranche.upper % 10_000;
    if upper == 0 {
        return tranche_of(recovery, tranche.lower % 10_000, 10_000);
    }
    tranche_of(recovery, tranche.lower % upper, upper)
}

fn random_records(word: u64) -> [Tranche; TRANCHES] {
    let mut later = word;
    let mut records = [likely_tranche(later); TRANCHES];
    for record in records.iter_mut().skip(1) {
        later = after(later, 4);
        *record = likely_tranche(later);
    }
    records
}

// From 0 to 10 of them.
fn random_tranches(word: u64) -> Tranches {
    Tranches {
        count: ((word >> 8) % 11) as u32,
        records: random_records(next(word)),
    }
}

// From 0 to one more than there are assets, of which there are fewer than 128.
fn default_number(word: u64, assets: u32) -> u32 {
    ((word >> 8) % 0x1_0000_0000) as u32 % (assets % 128 + 2)
}

// Two numbers that do not depend on each other; seven pairs in eight are put in order.
fn random_layer(word: u64, assets: u32) -> Call {
    let i = default_number(word, assets);
    let j = default_number(next(word), assets);
    if i > j && word % 8 != 0 {
        Call::Layer(j, i)
    } else {
        Call::Layer(i, j)
    }
}

fn run_losses(rt: &impl Print, library: Library, tranches: Tranches, pool: Pool) -> io::Result<()> {
    run_ample(rt, Call::Losses(library, tranches), pool)
}

// ---- cases: runs calls on what a word gives, and gives the word of the next case

// Fill, column and loss.
pub fn library_case(rt: &impl Print, word: u64) -> io::Result<u64> {
    let pool = random_pool(word, BEYOND);
    let tranche = random_tranche(after(word, 3));
    run_ample(rt, Call::Fill, pool)?;
    run_ample(rt, Call::Column(Library::Pool, ROWS), pool)?;
    run_ample(rt, Call::Loss(Library::Pool, tranche), pool)?;
    Ok(after(word, 7))
}

// The shift list.
pub fn shifts_case(rt: &impl Print, word: u64) -> io::Result<u64> {
    run_ample(rt, Call::Shifts(ROWS), random_pool(word, BEYOND_REPORT))?;
    Ok(after(word, 7))
}

// Column and loss of pools of 1 to 20 assets, by the library and on the screen.
pub fn screen_case(rt: &impl Print, word: u64) -> io::Result<u64> {
    let pool = small_pool(word);
    let tranche = random_tranche(after(word, 3));
    run_ample(rt, Call::Column(Library::Pool, ROWS), pool)?;
    run_ample(rt, Call::Column(Library::Screen, ROWS), pool)?;
    run_ample(rt, Call::Loss(Library::Pool, tranche), pool)?;
    run_ample(rt, Call::Loss(Library::Screen, tranche), pool)?;
    Ok(after(word, 7))
}

// Column and loss of the beta-binomial.
pub fn beta_case(rt: &impl Print, word: u64) -> io::Result<u64> {
    let pool = random_pool(word, BEYOND);
    let tranche = random_tranche(after(word, 3));
    run_ample(rt, Call::Column(Library::BetaBinomial, ROWS), pool)?;
    run_ample(rt, Call::Loss(Library::BetaBinomial, tranche), pool)?;
    Ok(after(word, 7))
}

// The losses of several tranches by each library.
pub fn losses_case(rt: &impl Print, word: u64) -> io::Result<u64> {
    let pool = random_pool(word, BEYOND);
    let tranches = random_tranches(after(word, 3));
    run_losses(rt, Library::Pool, tranches, pool)?;
    run_losses(rt, Library::Screen, tranches, small_pool(word))?;
    run_losses(rt, Library::BetaBinomial, tranches, pool)?;
    Ok(after(word, 36))
}

// Column and losses by both models, of pools of 65 to 100 assets.
pub fn large_case(rt: &impl Print, word: u64) -> io::Result<u64> {
    let pool = large_pool(word);
    let tranches = random_tranches(after(word, 3));
    run_ample(rt, Call::Column(Library::Pool, LARGE_ROWS), pool)?;
    run_ample(rt, Call::Column(Library::BetaBinomial, LARGE_ROWS), pool)?;
    run_losses(rt, Library::Pool, tranches, pool)?;
    run_losses(rt, Library::BetaBinomial, tranches, pool)?;
    Ok(after(word, 36))
}

// A layer of a pool and of one of 65 to 100 assets.
pub fn layers_case(rt: &impl Print, word: u64) -> io::Result<u64> {
    let fourth = after(word, 3);
    for pool in [random_pool(word, BEYOND), large_pool(word)] {
        run_ample(rt, random_layer(fourth, pool.assets), pool)?;
    }
    Ok(after(word, 7))
}

pub fn random_cases<F: Fn(u64) -> io::Result<u64>>(count: u32, case: F) -> io::Result<()>
    requires { F.IsAlwaysCallable case }
{
    let mut word = START;
    for _ in 0..count {
        word = case(word)?;
    }
    Ok(())
}
