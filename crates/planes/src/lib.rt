// Numbers of four bytes in planes: the lowest bytes of all of them, then the next of all, up to the highest. One side of a store is
// its significands in planes, and then its exponents, in two's complement, in planes.
#![tactic(auto)]

mod reading;
mod words;
mod writing;

pub use reading::{FileSide, word_at};
pub use words::Part;
pub use writing::{put_side, put_word, side_unkept};
