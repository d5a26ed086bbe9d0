// Runs the program `disk` on lines and paths, and shows what it leaves in the file. Then compares a store with files that
// tools/trial_disk.py made. Each case stands below a line that names it.
#![tactic(auto)]

use std::rt::Files;
use std::{fs, io};
use store::{Pool, StoreMut};
use trial_support::{START, checksum};

// The bytes of the largest file, and one more.
const BYTES: usize = 82_429;

// The places of a store of three assets, and some more.
const PLACES: usize = 15;

fn show_file(rt: &(impl Files + Print), path: &str) -> io::Result<()> {
    let Ok(mut file) = fs::open(rt, path) else {
        return println!(rt; "no file");
    };
    let mut bytes = [0u8; BYTES];
    let count = reading::read_full(&mut file, &mut bytes)?;
    println!(rt;
        "file of {count} bytes {:016x}",
        checksum(START, &bytes[..count])
    )
}

// Answers the file of an input. One that cannot be opened has nothing in it.
fn answer(rt: &(impl Files + Print), input: &str, path: &[u8]) -> io::Result<()> {
    println!(rt; "input {input}")?;
    match fs::open(rt, input) {
        Ok(mut file) => disk_console::answer_from(rt, &mut file, path),
        Err(_) => disk_console::answer_from(rt, &mut io::empty(), path),
    }
}

fn store(rt: &(impl Files + Print), input: &str) -> io::Result<()> {
    answer(rt, input, b"store")?;
    show_file(rt, "store")
}

// Longer and shorter files over each other, and inputs that leave the file as it is.
fn stores(rt: &(impl Files + Print)) -> io::Result<()> {
    show_file(rt, "store")?;
    for input in [
        "1",
        "3",
        "20",
        "64",
        "100",
        "no_line",
        "two_lines",
        "no_such_input",
        "0",
        "101",
        "p_10001",
        "rho_10001",
        "64",
        "certain",
        "20",
        "3",
        "1",
    ] {
        store(rt, input)?;
    }
    Ok(())
}

// A file that is there and longer, refused inputs for one that is not there, and paths of no file.
fn paths(rt: &(impl Files + Print)) -> io::Result<()> {
    show_file(rt, "longer")?;
    answer(rt, "3", b"longer")?;
    show_file(rt, "longer")?;
    answer(rt, "no_line", b"new")?;
    answer(rt, "101", b"new")?;
    show_file(rt, "new")?;
    answer(rt, "3", b"no_such_folder/store")?;
    answer(rt, "101", b"no_such_folder/store")?;
    answer(rt, "3", b"")?;
    answer(rt, "3", b".")?;
    answer(rt, "3", b"a\0b")?;
    answer(rt, "3", &[b'a'; 4_096])?;
    // Devices: one that takes no byte, and one that keeps none.
    answer(rt, "3", b"/dev/full")?;
    answer(rt, "3", b"/dev/null")
}

// Compares the store of three assets with a file.
fn compare(rt: &(impl Files + Print), path: &str) -> io::Result<()> {
    println!(rt; "compare {path}")?;
    let mut low_significands = [0u32; PLACES];
    let mut high_significands = [0u32; PLACES];
    let mut low_exponents = [0i32; PLACES];
    let mut high_exponents = [0i32; PLACES];
    let mut store = StoreMut {
        low_significands: &mut low_significands,
        high_significands: &mut high_significands,
        low_exponents: &mut low_exponents,
        high_exponents: &mut high_exponents,
    };
    let pool = Pool {
        assets: 3,
        probability: 1000,
        correlation: 3000,
    };
    let filled = store::fill(pool, pool, &mut store);
    disk_console::compare_with_file(rt, path.as_bytes(), filled.head, &store.shared())
}

fn files(rt: &(impl Files + Print)) -> io::Result<()> {
    for path in [
        // Files that can be read, of the same store and of others.
        "same",
        "other_probability",
        "other_correlation",
        "other_pool",
        "fewer_assets",
        "more_assets",
        "first_low_significand",
        "first_low_exponent",
        "first_high_significand",
        "first_high_exponent",
        "last_low_significand",
        "last_low_exponent",
        "last_high_significand",
        "last_high_exponent",
        // Files that are refused, or cannot be read.
        "empty",
        "eleven_bytes",
        "head_alone",
        "one_byte_less",
        "one_byte_more",
        "longer_than_largest",
        "no_assets",
        "too_many_assets",
        "high_probability",
        "high_correlation",
        "no_kept_number",
        "no_such_file",
        ".",
    ] {
        compare(rt, path)?;
    }
    Ok(())
}

// The program is given no path here.
fn main(rt: HostRuntime) -> io::Result<()> {
    disk_console::answer(&rt)?;
    stores(&rt)?;
    paths(&rt)?;
    files(&rt)
}
