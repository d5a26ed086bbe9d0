// The steps that make the bounds of a pool's chances, tails and losses. It has definitions and laws, in specs/, and no function.
#![tactic(auto)]

// A pool of equal assets. Default probability and correlation are in basis points. The head of a store, a term of the papers, is the
// pool for which its rows were last filled.
#[derive(Clone, Copy, Debug, PartialEq, Eq)]
pub struct Pool {
    pub assets: u32,
    pub probability: u32,
    pub correlation: u32,
}

// A tranche: what is recovered of a default, and the attachments, in basis points of the pool.
#[derive(Clone, Copy, Debug, PartialEq, Eq)]
pub struct Tranche {
    pub recovery: u32,
    pub lower: u32,
    pub upper: u32,
}

// The places for tranches in a loss call, and for losses in its answer.
pub const TRANCHES: usize = 8;

// The most assets of a pool.
pub const LARGEST_POOL: u32 = 100;

// The most assets of a pool in a shift list, and in the program `column`.
pub const REPORT_POOL: u32 = 64;

// The most assets that a working row has places for.
pub const WORKING_ASSETS: u32 = 100;
