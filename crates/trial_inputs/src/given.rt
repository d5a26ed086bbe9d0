// Inputs from standard input.
use grounds::Lengths;
use pool::{Pool, TRANCHES, Tranche};
use std::io;
use trial_lines::tranches::{REFUSED, Tranches, tranche_of};
use trial_lines::{LARGE_ROWS, Library, pool_of};
use trial_support::read_number;

pub fn read_pool(rt: &impl Input) -> io::Result<Pool> {
    let assets = read_number(rt)?;
    let probability = read_number(rt)?;
    let correlation = read_number(rt)?;
    Ok(pool_of(assets, probability, correlation))
}

pub fn read_length(rt: &impl Input) -> io::Result<usize> {
    Ok(read_number(rt)? as usize)
}

pub fn read_lengths(rt: &impl Input) -> io::Result<Lengths> {
    Ok(Lengths {
        low_significands: read_length(rt)?,
        high_significands: read_length(rt)?,
        low_exponents: read_length(rt)?,
        high_exponents: read_length(rt)?,
    })
}

// So many claims, at most 106.
pub fn read_claims(rt: &impl Input, count: usize) -> io::Result<[u32; LARGE_ROWS]> {
    let mut claims = [0u32; LARGE_ROWS];
    for claim in claims.iter_mut().take(count) {
        *claim = read_number(rt)?;
    }
    Ok(claims)
}

pub fn read_library(rt: &impl Input) -> io::Result<Library> {
    Ok(match read_number(rt)? {
        0 => Library::Pool,
        1 => Library::Screen,
        _ => Library::BetaBinomial,
    })
}

fn read_tranche(rt: &impl Input) -> io::Result<Tranche> {
    let recovery = read_number(rt)?;
    let lower = read_number(rt)?;
    let upper = read_number(rt)?;
    Ok(tranche_of(recovery, lower, upper))
}

// How many tranches there are, and so many, at most eight. Behind them records that would be refused.
pub fn read_tranches(rt: &impl Input) -> io::Result<Tranches> {
    let count = read_number(rt)?;
    let mut records = [REFUSED; TRANCHES];
    for record in records.iter_mut().take(count as usize) {
        *record = read_tranche(rt)?;
    }
    Ok(Tranches { count, records })
}
