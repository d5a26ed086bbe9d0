// The two calls, on the first places of the arrays and of the buffer.
use super::file_buffer::{BUFFER, write_buffer};
use grounds::Lengths;
use pool::Pool;
use std::io;
use trial_inputs::given::{read_length, read_lengths};
use trial_lines::shown::Shown;
use trial_lines::{Call, whole, write_head, write_outcome, write_store};
use trial_pool::arrays::Arrays;
use trial_stores::read_head;
use trial_support::{first, first_mut};

fn write_given(
    rt: &impl Print,
    name: &str,
    head: Pool,
    lengths: Lengths,
    bytes: usize,
) -> io::Result<()> {
    print!(rt;
        "{name} {} lengths {} bytes {bytes}",
        Shown(head),
        Shown(lengths)
    )
}

pub(crate) fn run_write(
    rt: &(impl Input + Print),
    held: Pool,
    arrays: &Arrays,
    buffer: &mut [u8; BUFFER],
) -> io::Result<()> {
    let head = read_head(rt, held)?;
    let lengths = read_lengths(rt)?;
    let bytes = read_length(rt)?;
    write_given(rt, "write", head, lengths, bytes)?;
    let outcome = store_file::write(head, &arrays.lent(lengths), first_mut(buffer, bytes));
    write_outcome(rt, outcome)?;
    write_buffer(rt, outcome.is_ok(), bytes, buffer)
}

// Gives the head that the call hands back.
pub(crate) fn run_read(
    rt: &(impl Input + Print),
    held: Pool,
    arrays: &mut Arrays,
    buffer: &[u8; BUFFER],
) -> io::Result<Pool> {
    let head = read_head(rt, held)?;
    let lengths = read_lengths(rt)?;
    let bytes = read_length(rt)?;
    write_given(rt, "read file", head, lengths, bytes)?;
    let filled = store_file::read(head, first(buffer, bytes), &mut arrays.lent_mut(lengths));
    write_outcome(rt, filled.answer)?;
    write_head(rt, filled.head)?;
    write_store(rt, Call::Fill, lengths, &arrays.lent(whole()))?;
    Ok(filled.head)
}
