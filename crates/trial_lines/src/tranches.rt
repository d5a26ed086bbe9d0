// The tranches of a loss call, made and written; its answer, and that of a layer call, written.
use crate::shown::Shown;
use pool::{Answer, Loss, Refusal, TRANCHES, Tranche};
use std::io;

// The record at each place of a loss call, and how many of them are asked for.
#[derive(Clone, Copy, Debug, PartialEq, Eq)]
pub struct Tranches {
    pub count: u32,
    pub records: [Tranche; TRANCHES],
}

// One that 4, 5 and 6 refuse.
pub const REFUSED: Tranche = Tranche {
    recovery: 10_001,
    lower: 10_001,
    upper: 10_001,
};

pub fn tranche_of(recovery: u32, lower: u32, upper: u32) -> Tranche {
    Tranche {
        recovery,
        lower,
        upper,
    }
}

// One tranche, and behind it records that would be refused.
pub fn one(tranche: Tranche) -> Tranches {
    let mut records = [REFUSED; TRANCHES];
    records[0] = tranche;
    Tranches { count: 1, records }
}

// Eight recoveries. Some tranches overlap, some touch, and two are untouched in every pool.
pub fn spread() -> [Tranche; TRANCHES] {
    [
        tranche_of(4_000, 1_000, 3_000),
        tranche_of(10_000, 0, 10_000),
        tranche_of(2_500, 3_000, 7_000),
        tranche_of(7_000, 2_000, 5_000),
        tranche_of(0, 0, 10_000),
        tranche_of(6_000, 4_000, 10_000),
        tranche_of(9_999, 0, 1),
        tranche_of(5_000, 4_999, 5_000),
    ]
}

// ---- writing

// The records within the count, and, after a word, those past it.
pub(crate) fn write_tranches(rt: &impl Print, tranches: Tranches) -> io::Result<()> {
    print!(rt; " count {} tranches", tranches.count)?;
    for (tranche, i) in tranches.records.iter().zip(0..) {
        if i == tranches.count {
            print!(rt; " unread")?;
        }
        print!(rt; " {}", Shown(*tranche))?;
    }
    Ok(())
}

// Nothing where the loss is untouched, as it has to be past the count, and on a refusal.
fn write_past(rt: &impl Print, loss: Loss) -> io::Result<()> {
    match loss {
        Loss::Untouched => Ok(()),
        _ => print!(rt; " past {}", Shown(loss)),
    }
}

// The refusal, or the losses within the count.
pub fn write_answer(rt: &impl Print, answer: Answer, count: u32) -> io::Result<()> {
    let within = match answer.outcome {
        Ok(()) => count,
        Err(refusal) => {
            print!(rt; " refusal {}", u32::from(refusal))?;
            0
        }
    };
    for (loss, i) in answer.losses.iter().zip(0..) {
        if i < within {
            print!(rt; " {}", Shown(*loss))?;
        } else {
            write_past(rt, *loss)?;
        }
    }
    Ok(())
}

// The refusal, or the loss.
pub fn write_layer(rt: &impl Print, outcome: Result<Loss, Refusal>) -> io::Result<()> {
    match outcome {
        Ok(loss) => print!(rt; " {}", Shown(loss)),
        Err(refusal) => print!(rt; " refusal {}", u32::from(refusal)),
    }
}
