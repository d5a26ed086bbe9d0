// Runs the calls that fill a store and the desk's read on one store, by the steps of standard input: how many there are, and each as
// crates/trial_stores takes it. tools/trial_desks.py writes the steps and what they must print.
#![tactic(auto)]

use std::io;
use trial_lines::pool_of;
use trial_pool::arrays::Arrays;
use trial_stores::run_step;
use trial_support::read_number;

fn main(rt: HostRuntime) -> io::Result<()> {
    let mut arrays = Arrays::filled_with(0, 0);
    let mut head = pool_of(0, 0, 0);
    for _ in 0..read_number(&rt)? {
        let kind = read_number(&rt)?;
        head = run_step(&rt, kind, head, &mut arrays)?;
    }
    Ok(())
}
