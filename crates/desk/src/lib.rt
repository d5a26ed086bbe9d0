// A desk's read of a store that several desks use: a row of it, by value, if the head of the store is what the desk expects. Any
// numbers and slices of any length may be given. The call answers, or refuses by the first ground that applies.
#![tactic(auto)]

ghost use Rattle.store.specs.Lent.{contents};
ghost use Rattle.desk.specs.Calls.{ReadsRow};

use kept::Kept;
use pool::{Pool, Refusal, Store};
use steps::LARGEST_POOL;
use working::PLACES;

// The default probability and the correlation that a desk expects of the head, and the row that it asks for.
#[derive(Clone, Copy, Debug, PartialEq, Eq)]
pub struct Request {
    pub probability: u32,
    pub correlation: u32,
    pub row: u32,
}

// Whether the read is refused, and the kept numbers of the row on either side, with zeros behind them. On a refusal all are zeros: for the
// sake of these the rows stand beside the outcome and not in it.
#[derive(Clone, Copy)]
pub struct DeskRow {
    pub outcome: Result<(), Refusal>,
    pub low: [Kept; PLACES],
    pub high: [Kept; PLACES],
}

// Row k of the store, for a desk that reads no row above its ceiling. Nothing is written.
pub fn read(head: Pool, request: Request, ceiling: u32, store: &Store<'_>) -> DeskRow
    ensures { ReadsRow head request ceiling (contents store.now) result }
{
    let outcome = refusals::desk_refusal(
        LARGEST_POOL,
        head,
        request.probability,
        request.correlation,
        request.row,
        ceiling,
        store.lengths(),
    );
    if outcome.is_err() {
        let zero = Kept::zero();
        let none = [zero; PLACES];
        return DeskRow {
            outcome,
            low: none,
            high: none,
        };
    }
    let from = grounds::row_start(request.row);
    let count = request.row as usize + 1;
    let low = store.low().row(count, from);
    let high = store.high().row(count, from);
    DeskRow { outcome, low, high }
}
