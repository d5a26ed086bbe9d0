// Runs the check of a claimed column on the cases of standard input, and prints a line for each. The input is numbers, each with one
// byte behind it: how many cases there are, and for each the pool whose store the slices hold (of no assets where they hold marks),
// the pool, the lengths of the four slices, how many claims there are, and the claims. tools/trial_checks.py writes them, and works
// the same lines out in exact whole numbers.
#![tactic(auto)]

use std::io;
use trial_inputs::given::{read_claims, read_length, read_lengths, read_pool};
use trial_pool::run_check;
use trial_support::read_number;

fn run_case(rt: &(impl Input + Print)) -> io::Result<()> {
    let other = read_pool(rt)?;
    let pool = read_pool(rt)?;
    let lengths = read_lengths(rt)?;
    let count = read_length(rt)?;
    let claims = read_claims(rt, count)?;
    match claims.get(..count) {
        Some(claims) => run_check(rt, other, pool, claims, lengths),
        None => Ok(()),
    }
}

fn main(rt: HostRuntime) -> io::Result<()> {
    let cases = read_number(&rt)?;
    for _ in 0..cases {
        run_case(&rt)?;
    }
    Ok(())
}
