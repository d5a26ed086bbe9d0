// Prints the answers to good and bad inputs, each below a line with the number of its case. tools/trial_column_lines.py works the
// same lines out in exact fractions.
#![tactic(auto)]

use reply::START;
use std::io;

// The first bytes of an input, in a buffer as long as the program's.
fn start_of(input: &[u8]) -> [u8; START] {
    let mut start = [0u8; START];
    for (place, byte) in start.iter_mut().zip(input) {
        *place = *byte;
    }
    start
}

fn show(rt: &impl Print, number: u32, input: &[u8]) -> io::Result<()> {
    println!(rt; "case {number}")?;
    rt.write_all(&reply::reply_to_start(start_of(input), input.len()))
}

// Inputs whose numbers follow on each other.
fn show_each(rt: &impl Print, first: u32, inputs: &[&str]) -> io::Result<()> {
    for (number, input) in (first..).zip(inputs) {
        show(rt, number, input.as_bytes())?;
    }
    Ok(())
}

fn tables(rt: &impl Print) -> io::Result<()> {
    show_each(
        rt,
        1,
        &[
            "3 1000 3000\n",
            "00003 01000 03000\n",
            "1 0 0\n",
            "1 10000 10000\n",
            "2 5000 0\n",
            "2 5000 10000\n",
            "10 250 1200\n",
            "64 1000 3000\n",
            "64 0 10000\n",
            "64 10000 0\n",
        ],
    )
}

fn refusals(rt: &impl Print) -> io::Result<()> {
    show_each(
        rt,
        11,
        &[
            "0 1000 3000\n",
            "65 1000 3000\n",
            "3 10001 3000\n",
            "3 1000 10001\n",
            "65 10001 0\n",
            "64 10001 10001\n",
            "99999 99999 99999\n",
            "00000 0 0\n",
        ],
    )
}

fn bad_lines(rt: &impl Print) -> io::Result<()> {
    show_each(
        rt,
        19,
        &[
            // Fields that are no number, too few or too many.
            "000003 1000 3000\n",
            "3 1000 003000\n",
            "+3 1000 3000\n",
            "3 -1000 3000\n",
            "3 1000 3000.0\n",
            "three 1000 3000\n",
            "3 0x10 3000\n",
            "3 1000 30:0\n",
            "3 1000 30/0\n",
            "3 1000\n",
            "3 1000 3000 0\n",
            // Fields that are not one space apart.
            " 3 1000 3000\n",
            "3 1000 3000 \n",
            "3  1000 3000\n",
            "3\t1000 3000\n",
            "3,1000,3000\n",
            "3\n1000\n3000\n",
            "3 1000\03000\n",
            // Not one newline at the end.
            "",
            "\n",
            "3 1000 3000",
            "3 1000 3000\n\n",
            "3 1000 3000\n3 1000 3000\n",
            "3 1000 3000\n\0",
            "3 1000 3000\0\n",
            "3 1000 3000\r\n",
            "3 1000 3000\r",
        ],
    )
}

fn long_inputs(rt: &impl Print) -> io::Result<()> {
    let digits = [b'1'; 4096];
    show(rt, 46, &digits)?;
    let mut line = [b'0'; 4006];
    line[0] = b'3';
    line[1] = b' ';
    line[3] = b' ';
    line[5] = b'\n';
    show(rt, 47, &line[..6])?;
    show(rt, 48, &line)
}

// A line of 18 bytes with something after it, up to and past what is read.
fn longest_lines(rt: &impl Print) -> io::Result<()> {
    show_each(
        rt,
        49,
        &[
            "00003 01000 03000\n\n",
            "00003 01000 03000\n000000000000000000000000000000000000000000000",
            "00003 01000 03000\n0000000000000000000000000000000000000000000000",
            "00003 01000 03000\n00000000000000000000000000000000000000000000000",
        ],
    )
}

// Standard input, by one read after the other: the first fills the buffer, and the second takes the rest.
fn inputs_read(rt: &(impl Input + Print)) -> io::Result<()> {
    println!(rt; "case 53")?;
    console::answer(rt)?;
    println!(rt; "case 54")?;
    console::answer(rt)
}

// Tails that are exactly half way between two units, the low side of the last two below that.
fn half_way(rt: &impl Print) -> io::Result<()> {
    show_each(
        rt,
        55,
        &[
            "2 5000 625\n",
            "3 5000 5000\n",
            "6 5000 0\n",
            "2 50 0\n",
            "2 1150 0\n",
        ],
    )
}

// Pools that the library accepts, and the first that it refuses.
fn large_pools(rt: &impl Print) -> io::Result<()> {
    show_each(
        rt,
        60,
        &[
            "66 1000 3000\n",
            "100 1000 3000\n",
            "100 0 0\n",
            "101 1000 3000\n",
            "100 10001 10001\n",
        ],
    )
}

fn main(rt: HostRuntime) -> io::Result<()> {
    tables(&rt)?;
    refusals(&rt)?;
    bad_lines(&rt)?;
    long_inputs(&rt)?;
    longest_lines(&rt)?;
    inputs_read(&rt)?;
    half_way(&rt)?;
    large_pools(&rt)
}
