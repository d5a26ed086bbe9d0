// Files of bytes that were made outside Rattle. The name of one is the assets of its pool, in three digits.
use super::file_buffer::BUFFER;
use std::io::Read;
use std::rt::Files;
use std::{fs, io};
use trial_support::{first, read_number};

// The file, if it can be opened.
fn open<R: Files + Alloc>(rt: &R, name: u32) -> io::Result<Option<R::File>> {
    let digits = name % 1_000;
    let path = format!(in rt.alloc(); "{digits:03}")?;
    Ok(fs::open(rt, path).ok())
}

fn write_same(rt: &impl Print, buffer: &[u8; BUFFER], file: &mut impl Read) -> io::Result<()> {
    let mut bytes = [0u8; BUFFER];
    let count = reading::read_full(file, &mut bytes)?;
    if first(buffer, count) == first(&bytes, count) {
        println!(rt; " {count} same")
    } else {
        println!(rt; " {count} different")
    }
}

pub fn run_compare(
    rt: &(impl Files + Input + Print + Alloc),
    buffer: &[u8; BUFFER],
) -> io::Result<()> {
    let name = read_number(rt)?;
    print!(rt; "compare {name}")?;
    match open(rt, name)? {
        Some(mut file) => write_same(rt, buffer, &mut file),
        None => println!(rt; " missing"),
    }
}

// Puts the file at the start of the buffer.
pub fn run_load(
    rt: &(impl Files + Input + Print + Alloc),
    buffer: &mut [u8; BUFFER],
) -> io::Result<()> {
    let name = read_number(rt)?;
    print!(rt; "load {name}")?;
    match open(rt, name)? {
        Some(mut file) => {
            let count = reading::read_full(&mut file, buffer)?;
            println!(rt; " {count}")
        }
        None => println!(rt; " missing"),
    }
}
