// Writes the store of a pool to a file, reads the file back, and says on standard output what came of it.
#![tactic(auto)]

mod compare;
mod failure;
mod files;

use compare::same_entries;
use failure::Failure;
use files::{invalid_argument, name_too_long, read_file, write_file};
use refusals::FILE_HEAD;
use std::env::{Env, FillError};
use std::io;
use std::io::Read;
use std::rt::Files;
use steps::LARGEST_POOL;
use store::{Pool, Refusal, Store, StoreMut};

// The places of the largest store: 5,151.
const STORE: usize = (LARGEST_POOL as usize + 1) * (LARGEST_POOL as usize + 2) / 2;

// The bytes of the largest file: 82,428.
const FILE: usize = FILE_HEAD + 16 * STORE;

// How many bytes of an input are read. A line has at most 18, so that one byte more decides.
const START: usize = 64;

// How many bytes of an argument are taken. A path has one fewer at most.
const PATH: usize = 4_096;

const EMPTY: Pool = Pool {
    assets: 0,
    probability: 0,
    correlation: 0,
};

// What is in the bytes of a file, beside a head and the entries of its rows.
#[derive(Clone, Copy, Debug, PartialEq, Eq)]
struct Comparison {
    head: bool,
    entries: bool,
}

fn compare_with_bytes(head: Pool, store: &Store<'_>, bytes: &[u8]) -> Result<Comparison, Refusal> {
    let mut low_significands = [0u32; STORE];
    let mut high_significands = [0u32; STORE];
    let mut low_exponents = [0i32; STORE];
    let mut high_exponents = [0i32; STORE];
    let mut places = StoreMut {
        low_significands: &mut low_significands,
        high_significands: &mut high_significands,
        low_exponents: &mut low_exponents,
        high_exponents: &mut high_exponents,
    };
    let read = store_file::read(EMPTY, bytes, &mut places);
    read.answer?;
    let count = grounds::store_places(head.assets);
    Ok(Comparison {
        head: head == read.head,
        entries: same_entries(count, store, &places.shared()),
    })
}

// Reads the file, and compares it with a head and the entries of its rows.
pub fn compare_with_file(
    rt: &(impl Files + Print),
    path: &[u8],
    head: Pool,
    store: &Store<'_>,
) -> io::Result<()> {
    // With room for one byte more, a file that is too long is seen to be.
    let mut bytes = [0u8; FILE + 1];
    let count = match read_file(rt, path, &mut bytes) {
        Ok(count) => count,
        Err(failure) => return println!(rt; "{failure}"),
    };
    match compare_with_bytes(head, store, &bytes[..count]) {
        Ok(Comparison { head, entries }) => {
            let head = if head {
                "the same head"
            } else {
                "another head"
            };
            let entries = if entries {
                "the same entries"
            } else {
                "other entries"
            };
            println!(rt; "read back: {head}, {entries}")
        }
        Err(refusal) => println!(rt; "read back: {}", Failure::Refused(refusal)),
    }
}

// Writes a store to the file, and gives how many bytes that is.
fn write_store(
    rt: &impl Files,
    path: &[u8],
    head: Pool,
    store: &Store<'_>,
) -> Result<usize, Failure> {
    let mut file = [0u8; FILE];
    let places = grounds::store_places(head.assets).min(STORE);
    let bytes = &mut file[..FILE_HEAD + 16 * places];
    store_file::write(head, store, bytes)?;
    write_file(rt, path, bytes)?;
    Ok(bytes.len())
}

// Fills a store for the pool, writes it to the file, reads the file back and compares.
fn answer_pool(rt: &(impl Files + Print), pool: Pool, path: &[u8]) -> io::Result<()> {
    let mut low_significands = [0u32; STORE];
    let mut high_significands = [0u32; STORE];
    let mut low_exponents = [0i32; STORE];
    let mut high_exponents = [0i32; STORE];
    let mut places = StoreMut {
        low_significands: &mut low_significands,
        high_significands: &mut high_significands,
        low_exponents: &mut low_exponents,
        high_exponents: &mut high_exponents,
    };
    let filled = store::fill(pool, EMPTY, &mut places);
    if let Err(refusal) = filled.answer {
        return println!(rt; "{}", Failure::Refused(refusal));
    }
    let store = places.shared();
    match write_store(rt, path, filled.head, &store) {
        Ok(count) => println!(rt; "written {count} bytes")?,
        Err(failure) => return println!(rt; "{failure}"),
    }
    compare_with_file(rt, path, filled.head, &store)
}

// The input has the line of a pool.
pub fn answer_from(
    rt: &(impl Files + Print),
    input: &mut impl Read,
    path: &[u8],
) -> io::Result<()> {
    let mut start = [0u8; START];
    let count = reading::read_full(input, &mut start)?;
    match text::line::read_line(&start[..count]) {
        Some(pool) => answer_pool(rt, pool, path),
        None => println!(rt; "refused line"),
    }
}

// The input is standard input, and the path the first argument.
pub fn answer(rt: &(impl Env + Files + Input + Print)) -> io::Result<()> {
    let mut path = [0u8; PATH];
    let error = match rt.arg(1, &mut path) {
        Ok(length) => return answer_from(rt, &mut rt.reader(), &path[..length]),
        Err(FillError::NotPresent) => invalid_argument(),
        Err(FillError::TooLong) => name_too_long(),
    };
    println!(rt; "{}", Failure::System("no path", error))
}
