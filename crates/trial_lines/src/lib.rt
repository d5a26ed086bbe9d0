// What a line of output says of a call: what it was given, the refusal or the answer, and a checksum of each array.
#![tactic(auto)]

pub mod shown;
pub mod tranches;

use grounds::Lengths;
use pool::{Pool, Refusal, Store, Tranche};
use shown::Shown;
use std::fmt::Display;
use std::io;
use tranches::{Tranches, write_tranches};
use trial_support::{START, Summed, checksum, first, refusal_number};

// The places of a store that are lent where enough are: for up to 64 assets, and for more.
pub const PLACES: usize = 2_150;

pub const LARGE_PLACES: usize = 5_156;

// Those of a list.
pub const ROWS: usize = 70;

pub const LARGE_ROWS: usize = 106;

// The libraries that have a column and a loss call. Those of the beta-binomial are lent no store.
#[derive(Clone, Copy, Debug, PartialEq, Eq)]
pub enum Library {
    Pool,
    Screen,
    BetaBinomial,
}

// A call, with what it takes beside the pool and the store: the number of a row, how many places of a column or of a shift list
// are lent, one tranche, several tranches, the first and the last default of a layer. The claims of a check are passed beside it.
#[derive(Clone, Copy, Debug, PartialEq, Eq)]
pub enum Call {
    Fill,
    Row(u32),
    Column(Library, usize),
    Shifts(usize),
    Loss(Library, Tranche),
    Losses(Library, Tranches),
    Layer(u32, u32),
    Check,
}

pub fn pool_of(assets: u32, probability: u32, correlation: u32) -> Pool {
    Pool {
        assets,
        probability,
        correlation,
    }
}

// Four slices of one length.
pub fn alike(length: usize) -> Lengths {
    Lengths {
        low_significands: length,
        high_significands: length,
        low_exponents: length,
        high_exponents: length,
    }
}

pub fn whole() -> Lengths {
    alike(LARGE_PLACES)
}

fn write_call(rt: &impl Print, call: Call, pool: Pool) -> io::Result<()> {
    let pool = Shown(pool);
    match call {
        Call::Fill => print!(rt; "fill {pool}"),
        Call::Row(k) => print!(rt; "row {k}"),
        Call::Column(library, _) => print!(rt; "{library}column {pool}"),
        Call::Shifts(_) => print!(rt; "shifts {pool}"),
        Call::Loss(library, tranche) => {
            let Tranche {
                recovery,
                lower,
                upper,
            } = tranche;
            print!(rt; "{library}loss {pool} {recovery} tranche {lower} {upper}")
        }
        Call::Losses(library, tranches) => {
            print!(rt; "{library}losses {pool}")?;
            write_tranches(rt, tranches)
        }
        Call::Layer(i, j) => print!(rt; "layer {pool} {i} {j}"),
        Call::Check => print!(rt; "check {pool}"),
    }
}

// Whether a call writes to a store.
fn writes_store(call: Call) -> bool {
    match call {
        Call::Row(_) => false,
        Call::Column(library, _) | Call::Loss(library, _) | Call::Losses(library, _) => {
            library != Library::BetaBinomial
        }
        _ => true,
    }
}

fn write_lengths(rt: &impl Print, call: Call, lengths: Lengths) -> io::Result<()> {
    if writes_store(call) {
        print!(rt; " lengths {}", Shown(lengths))?;
    } else if let Call::Column(_, _) = call {
        print!(rt; " length")?;
    }
    match call {
        Call::Column(_, places) | Call::Shifts(places) => print!(rt; " {places}"),
        _ => Ok(()),
    }
}

// What a call was given. Where there is another pool enough places are lent, and no lengths are written. The assets of the pool that
// a row is read for are, where the store is another's.
pub fn write_given(
    rt: &impl Print,
    other: Pool,
    call: Call,
    pool: Pool,
    lengths: Lengths,
) -> io::Result<()> {
    if other.assets == 0 {
        write_call(rt, call, pool)?;
        return write_lengths(rt, call, lengths);
    }
    let Call::Row(k) = call else {
        print!(rt; "over {} ", Shown(other))?;
        return write_call(rt, call, pool);
    };
    print!(rt; "filled {} row {k}", Shown(other))?;
    if pool.assets != other.assets {
        print!(rt; " of {}", pool.assets)?;
    }
    Ok(())
}

// The checksum of an array of which so many places were lent: of the few for up to 64 assets, or of all where more were.
fn sum_of<T: Summed>(places: &[T], lent: usize, few: usize) -> u64 {
    if lent <= few {
        checksum(START, first(places, few))
    } else {
        checksum(START, places)
    }
}

// The end of a line: what the arrays hold, if the call writes to them.
pub fn write_store(
    rt: &impl Print,
    call: Call,
    lengths: Lengths,
    store: &Store<'_>,
) -> io::Result<()> {
    if !writes_store(call) {
        return println!(rt; "");
    }
    println!(rt;
        " slices {:016x} {:016x} {:016x} {:016x}",
        sum_of(store.low_significands, lengths.low_significands, PLACES),
        sum_of(store.high_significands, lengths.high_significands, PLACES),
        sum_of(store.low_exponents, lengths.low_exponents, PLACES),
        sum_of(store.high_exponents, lengths.high_exponents, PLACES)
    )
}

pub fn write_outcome(rt: &impl Print, outcome: Result<(), Refusal>) -> io::Result<()> {
    print!(rt; " refusal {}", refusal_number(outcome))
}

pub fn write_head(rt: &impl Print, head: Pool) -> io::Result<()> {
    print!(rt; " head {}", Shown(head))
}

// The head that a call handed back, if it is not the one that is wanted.
pub fn write_wrong_head(rt: &impl Print, head: Pool, wanted: Pool) -> io::Result<()> {
    if head != wanted {
        write_head(rt, head)?;
    }
    Ok(())
}

pub fn write_numbers<T: Copy + Display>(rt: &impl Print, numbers: &[T]) -> io::Result<()> {
    for n in numbers {
        print!(rt; " {n}")?;
    }
    Ok(())
}

pub fn write_row(rt: &impl Print, part: &[u32]) -> io::Result<()> {
    print!(rt; " part {}", part.len())?;
    write_numbers(rt, part)
}

// A part by its length and both ends.
pub fn write_part(rt: &impl Print, part: &[u32]) -> io::Result<()> {
    match part {
        [first, .., last] => println!(rt; " part {} {first} {last}", part.len()),
        [only] => println!(rt; " part 1 {only} {only}"),
        [] => println!(rt; " part 0"),
    }
}

// The refusal, entries 0 to n of a column or a list if there is none, and the checksum of what they were written to.
pub fn write_list<T: Summed + Display>(
    rt: &impl Print,
    name: &str,
    pool: Pool,
    outcome: Result<(), Refusal>,
    list: &[T],
    lent: usize,
) -> io::Result<()> {
    write_outcome(rt, outcome)?;
    if outcome.is_ok() {
        write_numbers(rt, first(list, pool.assets as usize + 1))?;
    }
    print!(rt; " {name} {:016x}", sum_of(list, lent, ROWS))
}

// What the check of a column says, how many claims were lent, and the checksum of what they are now.
pub fn write_verdict(
    rt: &impl Print,
    verdict: Result<Option<u32>, Refusal>,
    claims: &[u32],
) -> io::Result<()> {
    match verdict {
        Ok(None) => print!(rt; " passed")?,
        Ok(Some(k)) => print!(rt; " fails {k}")?,
        Err(refusal) => print!(rt; " refusal {}", u32::from(refusal))?,
    }
    print!(rt; " claims {} {:016x}", claims.len(), checksum(START, claims))
}
