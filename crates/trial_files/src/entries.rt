// Entries of the store.
use std::io;
use trial_inputs::given::read_length;
use trial_pool::arrays::Arrays;
use trial_support::read_number;

// 0 and the exponent, or 1 and how far below -1 it is.
fn read_exponent(rt: &impl Input) -> io::Result<i32> {
    let sign = read_number(rt)?;
    let n = (read_number(rt)? % 0x8000_0000) as i32;
    Ok(if sign == 0 { n } else { !n })
}

fn put<T: Drop>(places: &mut [T], place: usize, x: T) {
    if place < places.len() {
        places[place] = x;
    }
}

pub fn run_entry(rt: &(impl Input + Print), arrays: &mut Arrays) -> io::Result<()> {
    let side = read_number(rt)?;
    let place = read_length(rt)?;
    let significand = read_number(rt)?;
    let exponent = read_exponent(rt)?;
    if side == 0 {
        put(&mut arrays.low_significands, place, significand);
        put(&mut arrays.low_exponents, place, exponent);
    } else {
        put(&mut arrays.high_significands, place, significand);
        put(&mut arrays.high_exponents, place, exponent);
    }
    println!(rt; "entry {side} {place} {significand} {exponent}")
}
