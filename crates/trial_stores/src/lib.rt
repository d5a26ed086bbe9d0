// A store in four arrays, and the steps on it that standard input gives, each of which prints a line. A step is numbers, each with one
// byte behind it: its kind and what it takes.
//
// 0: puts random words in the arrays; a seed, and from which place to before which they stay as they are.
// 1: a call that fills the store; a head, the call, the pool, the lengths of the four slices, how many claims there are, and the
//    claims.
// 2: a read; a head, the probability and the correlation that are expected, the row, the ceiling, and the lengths of the slices.
//
// A head is 0 for the one that was handed back last, or 1 and three numbers. tools/trial_stores.py writes the steps, and works the
// same lines out in exact whole numbers.
#![tactic(auto)]

mod filling;
mod marks;
mod reading;

use filling::run_call;
use marks::{Marks, integer, natural};
use pool::Pool;
use reading::run_read;
use std::io;
use trial_inputs::given::{read_length, read_pool};
use trial_lines::{Call, whole, write_store};
use trial_pool::arrays::Arrays;
use trial_support::read_number;

pub fn read_head(rt: &impl Input, held: Pool) -> io::Result<Pool> {
    match read_number(rt)? {
        0 => Ok(held),
        _ => read_pool(rt),
    }
}

fn run_marks(rt: &(impl Input + Print), arrays: &mut Arrays) -> io::Result<()> {
    let seed = read_number(rt)?;
    let from = read_length(rt)?;
    let to = read_length(rt)?;
    let marks = Marks { seed, from, to };
    marks.put(0, &mut arrays.low_significands, natural);
    marks.put(1, &mut arrays.high_significands, natural);
    marks.put(2, &mut arrays.low_exponents, integer);
    marks.put(3, &mut arrays.high_exponents, integer);
    print!(rt; "marks {seed} but {from} {to}")?;
    write_store(rt, Call::Fill, whole(), &arrays.lent(whole()))
}

// Runs a step of a kind, and gives the head of the store after it.
pub fn run_step(
    rt: &(impl Input + Print),
    kind: u32,
    head: Pool,
    arrays: &mut Arrays,
) -> io::Result<Pool> {
    match kind {
        0 => run_marks(rt, arrays)?,
        1 => return run_call(rt, head, arrays),
        _ => run_read(rt, head, arrays)?,
    }
    Ok(head)
}
