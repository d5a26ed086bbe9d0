// The buffer that files are written to and read from.
use std::io;
use trial_inputs::given::read_length;
use trial_support::{START, checksum, first, next, read_number};

// More bytes than a file of 101 assets would have.
pub const BUFFER: usize = 84_100;

// The bytes that the checksum is of where no more are lent: two files of 20 assets and some.
const FEW: usize = 7_500;

// The bytes of the largest file that is written whole: one of 3 assets.
const SHOWN: usize = 172;

pub fn run_bytes(rt: &(impl Input + Print), buffer: &mut [u8; BUFFER]) -> io::Result<()> {
    let seed = read_number(rt)?;
    let mut word = next(next(START ^ u64::from(seed)));
    for byte in buffer.iter_mut() {
        word = next(word);
        *byte = (word % 0x100) as u8;
    }
    println!(rt; "bytes {seed}")
}

// Those of so many bytes that have a place in the buffer.
fn put_given(
    rt: &impl Input,
    place: usize,
    count: usize,
    buffer: &mut [u8; BUFFER],
) -> io::Result<()> {
    for i in 0..count {
        let number = read_number(rt)?;
        if place < BUFFER && i < BUFFER - place {
            buffer[place + i] = (number % 0x100) as u8;
        }
    }
    Ok(())
}

pub fn run_put(rt: &(impl Input + Print), buffer: &mut [u8; BUFFER]) -> io::Result<()> {
    let place = read_length(rt)?;
    let count = read_length(rt)?;
    put_given(rt, place, count, buffer)?;
    println!(rt; "put {place} {count}")
}

// In hexadecimal digits, two for each byte.
fn write_bytes(rt: &impl Print, bytes: &[u8]) -> io::Result<()> {
    print!(rt; " ")?;
    for byte in bytes {
        print!(rt; "{byte:02x}")?;
    }
    Ok(())
}

// What the buffer holds, of which so many bytes were lent: these, if they were written and are not too many, and a checksum.
pub fn write_buffer(
    rt: &impl Print,
    written: bool,
    lent: usize,
    buffer: &[u8; BUFFER],
) -> io::Result<()> {
    print!(rt; " file")?;
    if written && lent <= SHOWN {
        write_bytes(rt, first(buffer, lent))?;
    }
    let summed = if lent <= FEW { FEW } else { BUFFER };
    println!(rt; " {:016x}", checksum(START, first(buffer, summed)))
}
