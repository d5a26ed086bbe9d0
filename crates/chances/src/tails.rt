// Tails, and the printed column: its rows are differences of tails in whole units.
ghost use Rattle.std.specs.Prelude.{◌≡◌, ◌<◌, length};
ghost use Rattle.model.specs.Fraction.{AtMost, integer};
ghost use Rattle.kept.specs.Rounding.{IsKept, value};
ghost use Rattle.steps.specs.Column.{in_units};
ghost use Rattle.steps.specs.Numbers.{TailNumber};
ghost use Rattle.working.specs.Slices.{entries_after};
ghost use Rattle.chances.specs.Chances.{RowReady};
ghost use Rattle.chances.specs.Tails.{TailsMade, Printable, TailsPrinted, Falling, difference_at, ColumnReady, RowTailsPrinted, ColumnPrinted};

use crate::chances;
use kept::{Kept, Side};
use model::UNITS;
use working::PLACES;

// The tails at 0 to n, and that past n.
pub const TAILS: usize = PLACES + 1;

// The tails of one side at 0 to n + 1. Starting from zero, the chances are added from n defaults down.
#[tactic(auto, unfolding(working::specs::Working::working_places, steps::specs::Inputs::working_assets))]
pub fn tails(n: u32, chances: [Kept; PLACES], side: Side) -> [Kept; TAILS]
    requires { RowReady n chances (TailNumber side n) }
    ensures { TailsMade side n chances result }
{
    let zero = Kept::zero();
    let mut tails = [zero; TAILS];
    let mut total = zero;
    let places = n as usize + 1;
    // By index, which is the place in each array: an iterator would have to be counted beside it.
    for j in (0..places).rev() {
        total = total.sum(chances[j], side);
        tails[j] = total;
    }
    tails
}

// A number of at most two in whole units, to nearest, and up where it is half way: its half units, rounded down, plus one, halved.
#[tactic(auto, unfolding(steps::specs::Column::units_of_certainty))]
fn in_units(x: Kept) -> u32
    requires kept { IsKept x }
    requires to_two { AtMost (value x) (integer 2) }
    ensures { result ≡ in_units x }
{
    let halves = x.times_whole(2 * UNITS, Side::Low) as u32;
    (halves + 1) / 2
}

// The printed tails at 0 to n + 1, from the tails of the low side. That at 0 is certainty.
#[tactic(auto, unfolding(working::specs::Working::working_places, steps::specs::Inputs::working_assets, steps::specs::Column::units_of_certainty))]
fn printed_tails(n: u32, tails: [Kept; TAILS]) -> [u32; TAILS]
    requires { Printable n tails }
    ensures { TailsPrinted n tails result }
{
    let mut printed = [UNITS; TAILS];
    let end = n as usize + 2;
    for k in 1..end {
        printed[k] = in_units(tails[k]);
    }
    printed
}

// The printed tails at 0 to n + 1, from row n of the low side.
pub fn print_tails(n: u32, row: [Kept; PLACES]) -> [u32; TAILS]
    requires { ColumnReady n row }
    ensures { RowTailsPrinted n row result }
{
    let low = chances(n, row, Side::Low);
    let low_tails = tails(n, low, Side::Low);
    printed_tails(n, low_tails)
}

// Rows 0 to n, from the printed tails, into the start of the slice.
#[tactic(auto, unfolding(steps::specs::Inputs::working_assets))]
fn print_rows(n: u32, printed: [u32; TAILS], units: &mut [u32])
    requires falling { Falling n printed }
    requires places { n < length units.old }
    ensures { units.new ≡ entries_after n (difference_at printed) 0 units.old }
{
    let places = n as usize + 1;
    for (k, unit) in units[..places].iter_mut().enumerate() {
        *unit = printed[k] - printed[k + 1];
    }
}

// The column of row n of the low side, into the start of the slice.
pub fn print_column(n: u32, row: [Kept; PLACES], units: &mut [u32])
    requires ready { ColumnReady n row }
    requires places { n < length units.old }
    ensures { ColumnPrinted n row units.old units.new }
{
    let printed = print_tails(n, row);
    print_rows(n, printed, units);
}
