// The inputs that the test programs share: those at the edges and random ones, each of which is run and prints a line, and those of
// standard input.
#![tactic(auto)]

pub mod edges;
pub mod given;
pub mod random;
