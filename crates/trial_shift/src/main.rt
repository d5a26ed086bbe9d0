// Runs the shift list at the edges of what it accepts, with probability and correlation at and next to their ends, and on random
// pools, a line for each case. tools/trial_shift.py works the same lines out in exact whole numbers.
#![tactic(auto)]

use std::io;
use trial_inputs::edges::{corners, lists};
use trial_inputs::random::{random_cases, shifts_case};
use trial_lines::{Call, LARGE_ROWS, ROWS, pool_of, whole};
use trial_pool::run;

// With places for 100 assets.
fn large(rt: &impl Print, assets: u32) -> io::Result<()> {
    let pool = pool_of(assets, 1_000, 3_000);
    run(rt, Call::Shifts(LARGE_ROWS), pool, whole())
}

fn main(rt: HostRuntime) -> io::Result<()> {
    lists(&rt, Call::Shifts(ROWS))?;
    for assets in [1, 2, 64] {
        corners(&rt, Call::Shifts(ROWS), assets)?;
    }
    for assets in [64, 65, 100, 101] {
        large(&rt, assets)?;
    }
    random_cases(300, |word| shifts_case(&rt, word))
}
