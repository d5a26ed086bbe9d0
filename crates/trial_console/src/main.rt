// Answers files of 0 to 64 bytes, one of each length, whose names are their lengths. Those of 6 to 18 bytes are a line.
#![tactic(auto)]

use std::rt::Files;
use std::{fs, io};

fn answer(rt: &(impl Files + Print + Alloc), length: u32) -> io::Result<()> {
    let name = format!(in rt.alloc(); "{length:02}")?;
    let mut file = fs::open(rt, name)?;
    console::answer_from(&mut file, &mut io::writer(rt))
}

fn main(rt: HostRuntime) -> io::Result<()> {
    for length in 0..65 {
        answer(&rt, length)?;
    }
    Ok(())
}
