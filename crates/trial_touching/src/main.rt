// Runs the loss call of each library on the cases of standard input, most of them tranches that touch from 0 to 10,000 with one
// recovery, and prints a line for each. The input is numbers, each with one byte behind it: how many cases there are, and for each
// the library, the pool, how many tranches there are, and the tranches. tools/trial_touching.py writes them, works the same lines
// out in exact whole numbers, and checks the sums of the losses that are printed.
#![tactic(auto)]

use std::io;
use trial_inputs::given::{read_library, read_pool, read_tranches};
use trial_lines::Call;
use trial_pool::run_ample;
use trial_support::read_number;

fn run_case(rt: &(impl Input + Print)) -> io::Result<()> {
    let library = read_library(rt)?;
    let pool = read_pool(rt)?;
    let tranches = read_tranches(rt)?;
    run_ample(rt, Call::Losses(library, tranches), pool)
}

fn main(rt: HostRuntime) -> io::Result<()> {
    let cases = read_number(&rt)?;
    for _ in 0..cases {
        run_case(&rt)?;
    }
    Ok(())
}
