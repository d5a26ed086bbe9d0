// Runs the fill, the column and the tranche loss on random pools, a line for each. tools/trial_pool_vectors.py works the same lines
// out in exact whole numbers.
#![tactic(auto)]

use std::io;
use trial_inputs::random::{library_case, random_cases};

fn main(rt: HostRuntime) -> io::Result<()> {
    random_cases(300, |word| library_case(&rt, word))
}
