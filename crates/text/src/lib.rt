// The text of the program `column`: the line that it reads and what it writes.
#![tactic(auto)]

pub mod line;
pub mod table;
