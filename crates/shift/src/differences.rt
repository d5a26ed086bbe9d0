// The differences of the printed tails of two rows.
ghost use Rattle.std.specs.Prelude.{◌≡◌, ◌≤◌, ◌<◌, pos, ◌-ℤ◌, length};
ghost use Rattle.steps.specs.Column.{units_of_certainty};
ghost use Rattle.working.specs.Slices.{entries_after};
ghost use Rattle.chances.specs.Tails.{ColumnReady};
ghost use Rattle.shift.specs.Differences.{InUnits, shift_at, ShiftsPrinted};

use chances::tails::{TAILS, print_tails};
use kept::Kept;
use working::PLACES;

// a − b, of two numbers of units.
fn difference(a: u32, b: u32) -> i32
    requires a { a ≤ units_of_certainty }
    requires b { b ≤ units_of_certainty }
    ensures { result ≡ pos a -ℤ pos b }
{
    a as i32 - b as i32
}

// For k from 0 to n the first printed tail at k less the second, into the start of the slice.
fn write_differences(n: u32, printed: [u32; TAILS], base: [u32; TAILS], shifts: &mut [i32])
    requires units { InUnits n printed }
    requires base_units { InUnits n base }
    requires places { n < length shifts.old }
    ensures { shifts.new ≡ entries_after n (shift_at printed base) 0 shifts.old }
{
    let places = n as usize + 1;
    // By index, which is the place in each array: an iterator would have to be counted beside it.
    for k in 0..places {
        let shift = difference(printed[k], base[k]);
        shifts[k] = shift;
    }
}

// The shift list of a row n of the low side against another, into the start of the slice.
pub fn print_shifts(n: u32, row: [Kept; PLACES], base: [Kept; PLACES], shifts: &mut [i32])
    requires ready { ColumnReady n row }
    requires base_ready { ColumnReady n base }
    requires places { n < length shifts.old }
    ensures { ShiftsPrinted n row base shifts.old shifts.new }
{
    let printed = print_tails(n, row);
    let base_printed = print_tails(n, base);
    write_differences(n, printed, base_printed, shifts);
}
