// Why a step is not done.
use std::{fmt, io};
use store::Refusal;

// A call refuses, or the system has an error at what is named.
#[derive(Debug, Drop)]
pub(crate) enum Failure {
    Refused(Refusal),
    System(&'static str, io::Error),
}

impl From<Refusal> for Failure {
    fn from(refusal: Refusal) -> Failure {
        Failure::Refused(refusal)
    }
}

// The system's number of an error.
fn error_number(error: &io::Error) -> i32 {
    match error.raw_os_error() {
        Some(number) if number > 0 => number,
        _ => 0,
    }
}

impl fmt::Display for Failure {
    fn fmt<W: fmt::Write>(&self, f: &mut fmt::Formatter<W>) -> fmt::Result {
        match self {
            Failure::Refused(refusal) => write!(f, "refused {}", u32::from(*refusal)),
            Failure::System(what, error) => write!(f, "{what}, error {}", error_number(error)),
        }
    }
}
