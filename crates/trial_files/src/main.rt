// Runs the two calls of the store file on one store and one buffer, by the steps of standard input, and prints a line for each. The
// input is how many steps there are, and for each its kind and what it takes. Kinds 0 to 2 are those of crates/trial_stores.
//
// 3: puts random bytes in the buffer; a seed.
// 4: puts bytes in the buffer; a place, how many there are, and the bytes.
// 5: puts an entry in the store; 0 for the low side or 1 for the high one, a place, a significand, and an exponent: 0 and itself, or 1
//    and how far below -1 it is.
// 6: writes a file; a head, the lengths of the four slices, and how many bytes of the buffer are lent.
// 7: reads a file; the same.
// 8: compares the buffer with a data file; the number that is its name.
// 9, and any other kind: puts a data file in the buffer; the same.
//
// tools/trial_files.py writes the steps and the data files, and works the same lines out in exact whole numbers.
#![tactic(auto)]

mod calls;
mod data;
mod entries;
mod file_buffer;

use calls::{run_read, run_write};
use data::{run_compare, run_load};
use entries::run_entry;
use file_buffer::{BUFFER, run_bytes, run_put};
use pool::Pool;
use std::io;
use std::rt::Files;
use trial_lines::pool_of;
use trial_pool::arrays::Arrays;
use trial_stores::run_step;
use trial_support::read_number;

// Gives the head of the store after the step.
fn run_next(
    rt: &(impl Files + Input + Print + Alloc),
    head: Pool,
    arrays: &mut Arrays,
    buffer: &mut [u8; BUFFER],
) -> io::Result<Pool> {
    let kind = read_number(rt)?;
    match kind {
        0..=2 => return run_step(rt, kind, head, arrays),
        3 => run_bytes(rt, buffer)?,
        4 => run_put(rt, buffer)?,
        5 => run_entry(rt, arrays)?,
        6 => run_write(rt, head, arrays, buffer)?,
        7 => return run_read(rt, head, arrays, buffer),
        8 => run_compare(rt, buffer)?,
        _ => run_load(rt, buffer)?,
    }
    Ok(head)
}

fn main(rt: HostRuntime) -> io::Result<()> {
    let mut arrays = Arrays::filled_with(0, 0);
    let mut buffer = [0u8; BUFFER];
    let mut head = pool_of(0, 0, 0);
    for _ in 0..read_number(&rt)? {
        head = run_next(&rt, head, &mut arrays, &mut buffer)?;
    }
    Ok(())
}
