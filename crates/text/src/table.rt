// The texts that the program writes. A function push_.. appends to a text.
ghost use Rattle.std.specs.Prelude.{suc, ◌+◌, ◌*◌, ◌≤◌, ◌<◌, ◌≡◌, length};
ghost use Rattle.arrayvec.specs.ArrayVec.{array_vec_len, Extends};
ghost use Rattle.model.specs.Number.{sum};
ghost use Rattle.text.specs.Table as spec;
ghost use Rattle.text.specs.Table.{field_text, line, row_of};

use arrayvec::ArrayVec;
use model::UNITS;

// The decimal digits of a number, of which a u32 has at most 10.
#[tactic(auto, using(crate::specs::Table::Laws::decimal_digit, crate::specs::Table::Laws::decimal_more, crate::specs::Table::Laws::nine_digits))]
fn decimal(number: u32) -> ArrayVec<u8, 10>
    ensures { result.items ≡ spec.decimal number }
{
    let mut digits = if number < 10 {
        ArrayVec::new()
    } else {
        decimal(number / 10)
    };
    digits.push(b'0' + (number % 10) as u8);
    digits
}

// A number and the byte that ends it.
#[tactic(auto, unfolding(crate::specs::Table::field_text))]
fn push_field<const N: usize>(text: &mut ArrayVec<u8, N>, number: u32, end: u8)
    requires { array_vec_len text.old + length (field_text number end) ≤ N }
    ensures { Extends text.old (field_text number end) text.new }
{
    text.try_extend_from_slice(&decimal(number)).unwrap();
    text.push(end);
}

#[tactic(auto, unfolding(crate::specs::Table::line))]
fn push_line<const N: usize>(text: &mut ArrayVec<u8, N>, defaults: u32, row: u32, tail: u32)
    requires { array_vec_len text.old + length (line defaults row tail) ≤ N }
    ensures { Extends text.old (line defaults row tail) text.new }
{
    push_field(text, defaults, b' ');
    push_field(text, row, b' ');
    push_field(text, tail, b'\n');
}

// The table of a column, whose rows 0 to n add to 100,000 units. The tail goes down by each row.
pub fn column_text<const N: usize>(n: u32, units: &[u32]) -> ArrayVec<u8, N>
    requires n_bound_1 { n ≤ 99 }
    requires n_bound_2 { n < length units.now }
    requires units_value { sum (suc n) (row_of units.now) ≡ 100000 }
    requires n_in_bounds { 20 + suc n * 17 ≤ N }
    ensures { result.items ≡ spec.column_text n units.now }
{
    let mut text = ArrayVec::new();
    text.try_extend_from_slice(b"defaults units tail\n")
        .unwrap();
    let mut tail = UNITS;
    for k in 0..n + 1 {
        let row = units[k as usize];
        push_line(&mut text, k, row, tail);
        tail -= row;
    }
    text
}

// The line of a refusal with a number.
#[tactic(auto, using(crate::specs::Table::Laws::short_field), unfolding(crate::specs::Table::refused_text, crate::specs::Ascii::ascii))]
pub fn refused_text<const N: usize>(number: u32) -> ArrayVec<u8, N>
    requires few { number ≤ 99 }
    requires places { 11 ≤ N }
    ensures { result.items ≡ spec.refused_text number }
{
    let mut text = ArrayVec::new();
    text.try_extend_from_slice(b"refused ").unwrap();
    push_field(&mut text, number, b'\n');
    text
}

// The line that answers an input which is no line.
#[tactic(auto, unfolding(crate::specs::Table::refused_line, crate::specs::Ascii::ascii))]
pub fn refused_line<const N: usize>() -> ArrayVec<u8, N>
    requires { 13 ≤ N }
    ensures { result.items ≡ spec.refused_line }
{
    let mut text = ArrayVec::new();
    text.try_extend_from_slice(b"refused line\n").unwrap();
    text
}
