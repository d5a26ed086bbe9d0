// How values are written.
use crate::Library;
use grounds::Lengths;
use pool::{Loss, Pool, Tranche};
use std::fmt;
use trial_support::bits;

// A value of another crate. Numbers are written in the order of the fields, with a space between them.
#[derive(Clone, Copy, Debug, PartialEq, Eq)]
pub struct Shown<T>(pub T);

impl fmt::Display for Shown<Pool> {
    fn fmt<W: fmt::Write>(&self, f: &mut fmt::Formatter<W>) -> fmt::Result {
        let Pool {
            assets,
            probability,
            correlation,
        } = self.0;
        write!(f, "{assets} {probability} {correlation}")
    }
}

impl fmt::Display for Shown<Tranche> {
    fn fmt<W: fmt::Write>(&self, f: &mut fmt::Formatter<W>) -> fmt::Result {
        let Tranche {
            recovery,
            lower,
            upper,
        } = self.0;
        write!(f, "{recovery} {lower} {upper}")
    }
}

impl fmt::Display for Shown<Lengths> {
    fn fmt<W: fmt::Write>(&self, f: &mut fmt::Formatter<W>) -> fmt::Result {
        let lengths = self.0;
        write!(
            f,
            "{} {} {} {}",
            lengths.low_significands,
            lengths.high_significands,
            lengths.low_exponents,
            lengths.high_exponents
        )
    }
}

// By the bits of its numbers.
impl fmt::Display for Shown<Loss> {
    fn fmt<W: fmt::Write>(&self, f: &mut fmt::Formatter<W>) -> fmt::Result {
        match self.0 {
            Loss::Untouched => write!(f, "untouched"),
            Loss::Faint(x) => write!(f, "faint {:016x}", bits(x)),
            Loss::Shown(bounds) => {
                write!(
                    f,
                    "shown {:016x} {:016x}",
                    bits(bounds.low),
                    bits(bounds.high)
                )
            }
        }
    }
}

// The word before the name of a call.
impl fmt::Display for Library {
    fn fmt<W: fmt::Write>(&self, f: &mut fmt::Formatter<W>) -> fmt::Result {
        match self {
            Library::Pool => Ok(()),
            Library::Screen => write!(f, "screen "),
            Library::BetaBinomial => write!(f, "beta "),
        }
    }
}
