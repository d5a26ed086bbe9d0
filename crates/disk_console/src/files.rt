// Reads and writes a file.
ghost use Rattle.std.specs.Prelude.{◌≤◌, length, IfOk};

use crate::failure::Failure;
use std::io::Write;
use std::rt::Files;
use std::{fs, io};

// The bytes of a path that is too long: with one more that ends it, it has to fit in the system's buffer.
const TOO_LONG: usize = 4_096;

// The system's numbers of errors.
const INVALID_ARGUMENT: i32 = 22;

const NAME_TOO_LONG: i32 = 36;

const ILLEGAL_BYTES: i32 = 84;

pub(crate) fn invalid_argument() -> io::Error {
    io::Error::from_raw_os_error(INVALID_ARGUMENT)
}

pub(crate) fn name_too_long() -> io::Error {
    io::Error::from_raw_os_error(NAME_TOO_LONG)
}

// A path as the library takes it, as text. One that is no text, or that the system cannot be given, makes the error that says so.
fn path_text(path: &[u8]) -> io::Result<&str> {
    if path.len() >= TOO_LONG {
        return Err(name_too_long());
    }
    if path.contains(&0) {
        return Err(invalid_argument());
    }
    str::from_utf8(path).map_err(|_| io::Error::from_raw_os_error(ILLEGAL_BYTES))
}

fn open_to_read<R: Files>(rt: &R, path: &[u8]) -> io::Result<R::File> {
    fs::open(rt, path_text(path)?)
}

fn open_to_write<R: Files>(rt: &R, path: &[u8]) -> io::Result<R::File> {
    fs::create(rt, path_text(path)?)
}

// Puts the bytes of a file at the start of a buffer, as many as fit, and gives how many there are.
pub(crate) fn read_file(rt: &impl Files, path: &[u8], buffer: &mut [u8]) -> Result<usize, Failure>
    ensures { IfOk result (λ count. count ≤ length buffer.new) }
{
    let mut file = open_to_read(rt, path).map_err(|error| Failure::System(
        "cannot open to read",
        error,
    ))?;
    reading::read_full(&mut file, buffer).map_err(|error| Failure::System("cannot read", error))
}

// Makes the file, or empties it where it is there, and writes the bytes to it.
pub(crate) fn write_file(rt: &impl Files, path: &[u8], bytes: &[u8]) -> Result<(), Failure> {
    let mut file = open_to_write(rt, path).map_err(|error| Failure::System(
        "cannot open to write",
        error,
    ))?;
    file.write_all(bytes)
        .map_err(|error| Failure::System("cannot write", error))
}
