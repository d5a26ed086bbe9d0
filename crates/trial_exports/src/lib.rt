// The calls under C names, for the programs of tools/random_calls. Numbers pass as themselves, a slice as a pointer and a length, an
// array, and a number that is written, by a pointer.
#![tactic(auto)]

use desk::Request;
use kept::Kept;
use pool::{Answer, Filled, Loss, Pool, Refusal, Store, StoreMut, TRANCHES, Tranche};
use trial_support::refusal_number;

// Three numbers for each tranche: recovery, lower and upper attachment.
const RECORDS: usize = 24;

// The entries of the longest row.
const ROWS: usize = 101;

// The numbers of a head: assets, probability and correlation.
const HEAD: usize = 3;

fn pool_of(assets: u32, probability: u32, correlation: u32) -> Pool {
    Pool {
        assets,
        probability,
        correlation,
    }
}

fn head_of(head: &[u32; HEAD]) -> Pool {
    pool_of(head[0], head[1], head[2])
}

// Writes the head that a call handed back.
fn write_head(handed: Pool, head: &mut [u32; HEAD]) {
    *head = [handed.assets, handed.probability, handed.correlation];
}

// Writes the head, and gives the number of the refusal, or 0.
fn write_filled(filled: Filled<Result<(), Refusal>>, head: &mut [u32; HEAD]) -> u32 {
    write_head(filled.head, head);
    refusal_number(filled.answer)
}

fn tranches_of(records: &[u32; RECORDS]) -> [Tranche; TRANCHES] {
    let mut tranches = [Tranche {
        recovery: 0,
        lower: 0,
        upper: 0,
    }; TRANCHES];
    let (records, _) = records.as_chunks::<3>();
    for (tranche, [recovery, lower, upper]) in tranches.iter_mut().zip(records) {
        *tranche = Tranche {
            recovery: *recovery,
            lower: *lower,
            upper: *upper,
        };
    }
    tranches
}

// A kind, 0 untouched, 1 faint, 2 shown, and up to two numbers. Where there is none, it is 0.
fn numbers_of(loss: Loss) -> (u32, f64, f64) {
    match loss {
        Loss::Untouched => (0, 0.0, 0.0),
        Loss::Faint(x) => (1, x, 0.0),
        Loss::Shown(bounds) => (2, bounds.low, bounds.high),
    }
}

// Writes the eight losses, and gives the number of the refusal, or 0.
fn write_answer(
    answer: Answer,
    kinds: &mut [u32; TRANCHES],
    firsts: &mut [f64; TRANCHES],
    seconds: &mut [f64; TRANCHES],
) -> u32 {
    // By index, which is the place in each array.
    for (i, loss) in answer.losses.iter().enumerate() {
        let (kind, first, second) = numbers_of(*loss);
        kinds[i] = kind;
        firsts[i] = first;
        seconds[i] = second;
    }
    refusal_number(answer.outcome)
}

#[unsafe(no_mangle)]
pub extern "C" fn trial_fill(
    assets: u32,
    probability: u32,
    correlation: u32,
    head: &mut [u32; HEAD],
    low_significands: &mut [u32],
    high_significands: &mut [u32],
    low_exponents: &mut [i32],
    high_exponents: &mut [i32],
) -> u32 {
    let mut store = StoreMut {
        low_significands,
        high_significands,
        low_exponents,
        high_exponents,
    };
    let filled = pool::fill(
        pool_of(assets, probability, correlation),
        head_of(head),
        &mut store,
    );
    write_filled(filled, head)
}

// Copies what there is, and gives its length.
fn copy_of<T: Copy>(part: &[T], copy: &mut [T]) -> usize {
    for (place, x) in copy.iter_mut().zip(part) {
        *place = *x;
    }
    part.len()
}

#[unsafe(no_mangle)]
pub extern "C" fn trial_row(n: u32, k: u32, significands: &[u32], copy: &mut [u32; ROWS]) -> usize {
    copy_of(pool::row(n, k, significands), copy)
}

#[unsafe(no_mangle)]
pub extern "C" fn trial_row_refusal(n: u32, k: u32, significands: &[u32]) -> u32 {
    refusal_number(pool::row_refusal(n, k, significands))
}

#[unsafe(no_mangle)]
pub extern "C" fn trial_column(
    assets: u32,
    probability: u32,
    correlation: u32,
    head: &mut [u32; HEAD],
    low_significands: &mut [u32],
    high_significands: &mut [u32],
    low_exponents: &mut [i32],
    high_exponents: &mut [i32],
    units: &mut [u32],
) -> u32 {
    let mut store = StoreMut {
        low_significands,
        high_significands,
        low_exponents,
        high_exponents,
    };
    let pool = pool_of(assets, probability, correlation);
    let filled = pool::column(pool, head_of(head), &mut store, units);
    write_filled(filled, head)
}

#[unsafe(no_mangle)]
pub extern "C" fn trial_screen_column(
    assets: u32,
    probability: u32,
    correlation: u32,
    head: &mut [u32; HEAD],
    low_significands: &mut [u32],
    high_significands: &mut [u32],
    low_exponents: &mut [i32],
    high_exponents: &mut [i32],
    units: &mut [u32],
) -> u32 {
    let mut store = StoreMut {
        low_significands,
        high_significands,
        low_exponents,
        high_exponents,
    };
    let pool = pool_of(assets, probability, correlation);
    let filled = screen::column(pool, head_of(head), &mut store, units);
    write_filled(filled, head)
}

#[unsafe(no_mangle)]
pub extern "C" fn trial_shift_list(
    assets: u32,
    probability: u32,
    correlation: u32,
    head: &mut [u32; HEAD],
    low_significands: &mut [u32],
    high_significands: &mut [u32],
    low_exponents: &mut [i32],
    high_exponents: &mut [i32],
    shifts: &mut [i32],
) -> u32 {
    let mut store = StoreMut {
        low_significands,
        high_significands,
        low_exponents,
        high_exponents,
    };
    let pool = pool_of(assets, probability, correlation);
    let filled = shift::shift_list(pool, head_of(head), &mut store, shifts);
    write_filled(filled, head)
}

#[unsafe(no_mangle)]
pub extern "C" fn trial_beta_column(
    assets: u32,
    probability: u32,
    correlation: u32,
    units: &mut [u32],
) -> u32 {
    refusal_number(beta_binomial::column(pool_of(assets, probability, correlation), units))
}

#[unsafe(no_mangle)]
pub extern "C" fn trial_losses(
    assets: u32,
    probability: u32,
    correlation: u32,
    head: &mut [u32; HEAD],
    records: &[u32; RECORDS],
    count: u32,
    low_significands: &mut [u32],
    high_significands: &mut [u32],
    low_exponents: &mut [i32],
    high_exponents: &mut [i32],
    kinds: &mut [u32; TRANCHES],
    firsts: &mut [f64; TRANCHES],
    seconds: &mut [f64; TRANCHES],
) -> u32 {
    let mut store = StoreMut {
        low_significands,
        high_significands,
        low_exponents,
        high_exponents,
    };
    let pool = pool_of(assets, probability, correlation);
    let tranches = tranches_of(records);
    let filled = pool::tranche_losses(pool, head_of(head), tranches, count, &mut store);
    write_head(filled.head, head);
    write_answer(filled.answer, kinds, firsts, seconds)
}

#[unsafe(no_mangle)]
pub extern "C" fn trial_screen_losses(
    assets: u32,
    probability: u32,
    correlation: u32,
    head: &mut [u32; HEAD],
    records: &[u32; RECORDS],
    count: u32,
    low_significands: &mut [u32],
    high_significands: &mut [u32],
    low_exponents: &mut [i32],
    high_exponents: &mut [i32],
    kinds: &mut [u32; TRANCHES],
    firsts: &mut [f64; TRANCHES],
    seconds: &mut [f64; TRANCHES],
) -> u32 {
    let mut store = StoreMut {
        low_significands,
        high_significands,
        low_exponents,
        high_exponents,
    };
    let pool = pool_of(assets, probability, correlation);
    let tranches = tranches_of(records);
    let filled = screen::tranche_losses(pool, head_of(head), tranches, count, &mut store);
    write_head(filled.head, head);
    write_answer(filled.answer, kinds, firsts, seconds)
}

#[unsafe(no_mangle)]
pub extern "C" fn trial_beta_losses(
    assets: u32,
    probability: u32,
    correlation: u32,
    records: &[u32; RECORDS],
    count: u32,
    kinds: &mut [u32; TRANCHES],
    firsts: &mut [f64; TRANCHES],
    seconds: &mut [f64; TRANCHES],
) -> u32 {
    let pool = pool_of(assets, probability, correlation);
    let answer = beta_binomial::tranche_losses(pool, tranches_of(records), count);
    write_answer(answer, kinds, firsts, seconds)
}

// Writes the loss, and gives the number of the refusal, or 0.
#[unsafe(no_mangle)]
pub extern "C" fn trial_layer_loss(
    assets: u32,
    probability: u32,
    correlation: u32,
    head: &mut [u32; HEAD],
    i: u32,
    j: u32,
    low_significands: &mut [u32],
    high_significands: &mut [u32],
    low_exponents: &mut [i32],
    high_exponents: &mut [i32],
    kind: &mut u32,
    first: &mut f64,
    second: &mut f64,
) -> u32 {
    let mut store = StoreMut {
        low_significands,
        high_significands,
        low_exponents,
        high_exponents,
    };
    let pool = pool_of(assets, probability, correlation);
    let filled = pool::layer_loss(pool, head_of(head), i, j, &mut store);
    write_head(filled.head, head);
    let numbers = numbers_of(pool::loss_or_untouched(filled.answer));
    *kind = numbers.0;
    *first = numbers.1;
    *second = numbers.2;
    refusal_number(filled.answer)
}

// Writes the number of the refusal or of the row, or 0, and gives a kind: 0 refused, 1 passed, 2 fails.
#[unsafe(no_mangle)]
pub extern "C" fn trial_check_column(
    assets: u32,
    probability: u32,
    correlation: u32,
    head: &mut [u32; HEAD],
    claims: &[u32],
    low_significands: &mut [u32],
    high_significands: &mut [u32],
    low_exponents: &mut [i32],
    high_exponents: &mut [i32],
    number: &mut u32,
) -> u32 {
    let mut store = StoreMut {
        low_significands,
        high_significands,
        low_exponents,
        high_exponents,
    };
    let pool = pool_of(assets, probability, correlation);
    let filled = column_check::check_column(pool, head_of(head), claims, &mut store);
    write_head(filled.head, head);
    let (kind, given) = match filled.answer {
        Err(refusal) => (0, u32::from(refusal)),
        Ok(None) => (1, 0),
        Ok(Some(k)) => (2, k),
    };
    *number = given;
    kind
}

// Writes the parts of a row's kept numbers.
fn write_row(row: [Kept; ROWS], significands: &mut [u32; ROWS], exponents: &mut [i32; ROWS]) {
    // In one pass: `map` of an array makes three, over cells that hold its elements.
    for (i, entry) in row.iter().enumerate() {
        significands[i] = entry.significand;
        exponents[i] = entry.exponent;
    }
}

// Writes the row on either side, and gives the number of the refusal, or 0.
#[unsafe(no_mangle)]
pub extern "C" fn trial_read(
    assets: u32,
    probability: u32,
    correlation: u32,
    expected_probability: u32,
    expected_correlation: u32,
    row: u32,
    ceiling: u32,
    low_significands: &[u32],
    high_significands: &[u32],
    low_exponents: &[i32],
    high_exponents: &[i32],
    low_row_significands: &mut [u32; ROWS],
    high_row_significands: &mut [u32; ROWS],
    low_row_exponents: &mut [i32; ROWS],
    high_row_exponents: &mut [i32; ROWS],
) -> u32 {
    let store = Store {
        low_significands,
        high_significands,
        low_exponents,
        high_exponents,
    };
    let request = Request {
        probability: expected_probability,
        correlation: expected_correlation,
        row,
    };
    let answer = desk::read(
        pool_of(assets, probability, correlation),
        request,
        ceiling,
        &store,
    );
    write_row(answer.low, low_row_significands, low_row_exponents);
    write_row(answer.high, high_row_significands, high_row_exponents);
    refusal_number(answer.outcome)
}

#[unsafe(no_mangle)]
pub extern "C" fn trial_write_file(
    assets: u32,
    probability: u32,
    correlation: u32,
    low_significands: &[u32],
    high_significands: &[u32],
    low_exponents: &[i32],
    high_exponents: &[i32],
    file: &mut [u8],
) -> u32 {
    let store = Store {
        low_significands,
        high_significands,
        low_exponents,
        high_exponents,
    };
    let head = pool_of(assets, probability, correlation);
    refusal_number(store_file::write(head, &store, file))
}

#[unsafe(no_mangle)]
pub extern "C" fn trial_read_file(
    head: &mut [u32; HEAD],
    file: &[u8],
    low_significands: &mut [u32],
    high_significands: &mut [u32],
    low_exponents: &mut [i32],
    high_exponents: &mut [i32],
) -> u32 {
    let mut store = StoreMut {
        low_significands,
        high_significands,
        low_exponents,
        high_exponents,
    };
    let filled = store_file::read(head_of(head), file, &mut store);
    write_filled(filled, head)
}

// The reply of the program `column` to an input, and its length.
#[unsafe(no_mangle)]
pub extern "C" fn trial_reply(start: &[u8; 64], count: usize, text: &mut [u8; 1_125]) -> usize {
    let reply = reply::reply_to_start(*start, count);
    let bytes = reply.text;
    *text = bytes;
    reply.length
}
