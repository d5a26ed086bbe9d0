// A desk's read of the store, from standard input.
use super::read_head;
use desk::{DeskRow, Request};
use kept::Kept;
use pool::Pool;
use std::io;
use trial_inputs::given::read_lengths;
use trial_lines::shown::Shown;
use trial_lines::{Call, whole, write_numbers, write_outcome, write_store};
use trial_pool::arrays::Arrays;
use trial_support::{START, checksum, first, read_number};
use working::PLACES;

// Of a row up to this one every entry is written.
const SMALL: u32 = 4;

fn read_request(rt: &impl Input) -> io::Result<Request> {
    let probability = read_number(rt)?;
    let correlation = read_number(rt)?;
    let row = read_number(rt)?;
    Ok(Request {
        probability,
        correlation,
        row,
    })
}

// The first entries of a side, by significands and exponents, and the checksum of all 101.
fn write_side(rt: &impl Print, side: [Kept; PLACES], count: usize) -> io::Result<()> {
    let significands = side.map(|entry| entry.significand);
    let exponents = side.map(|entry| entry.exponent);
    write_numbers(rt, first(&significands, count))?;
    write_numbers(rt, first(&exponents, count))?;
    let sum = checksum(checksum(START, &significands), &exponents);
    print!(rt; " {sum:016x}")
}

fn write_desk_row(rt: &impl Print, answer: DeskRow, row: u32) -> io::Result<()> {
    write_outcome(rt, answer.outcome)?;
    let count = if answer.outcome.is_ok() && row <= SMALL {
        row as usize + 1
    } else {
        0
    };
    print!(rt; " low")?;
    write_side(rt, answer.low, count)?;
    print!(rt; " high")?;
    write_side(rt, answer.high, count)
}

pub(crate) fn run_read(rt: &(impl Input + Print), held: Pool, arrays: &Arrays) -> io::Result<()> {
    let head = read_head(rt, held)?;
    let request = read_request(rt)?;
    let ceiling = read_number(rt)?;
    let lengths = read_lengths(rt)?;
    let Request {
        probability,
        correlation,
        row,
    } = request;
    print!(rt;
        "read {} expects {probability} {correlation} row {row}",
        Shown(head)
    )?;
    print!(rt; " ceiling {ceiling} lengths {}", Shown(lengths))?;
    let answer = desk::read(head, request, ceiling, &arrays.lent(lengths));
    write_desk_row(rt, answer, row)?;
    write_store(rt, Call::Fill, lengths, &arrays.lent(whole()))
}
