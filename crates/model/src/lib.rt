// The exact model of a pool's defaults. It has definitions and laws, in specs/, and no function.
#![tactic(auto)]

// One, in basis points.
pub const WHOLE: u32 = 10_000;

// One, in units, the parts that a column is printed in.
pub const UNITS: u32 = 100_000;
