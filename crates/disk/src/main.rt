// Writes the store of the pool on standard input to the file that the argument names, and reads it back.
#![tactic(auto)]

use std::io;

fn main(rt: HostRuntime) -> io::Result<()> {
    disk_console::answer(&rt)
}
