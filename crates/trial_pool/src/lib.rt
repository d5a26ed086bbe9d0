// Runs a call on lent slices and prints its line.
#![tactic(auto)]

pub mod arrays;

use arrays::Arrays;
use grounds::Lengths;
use pool::{Answer, Filled, Pool, Refusal, Store, StoreMut, TRANCHES, Tranche};
use std::io;
use trial_lines::tranches::{Tranches, one, tranche_of, write_answer, write_layer};
use trial_lines::{
    Call, LARGE_PLACES, LARGE_ROWS, Library, PLACES, alike, pool_of, whole, write_given,
    write_list, write_outcome, write_part, write_row, write_store, write_verdict, write_wrong_head,
};
use trial_support::{first, first_mut};

// The fewest assets that the calls refuse by 1, and the shift list.
pub const BEYOND: u32 = 101;

pub const BEYOND_REPORT: u32 = 65;

// What every place holds at first.
const MARK: u32 = 1_000_000_007;

const INTEGER_MARK: i32 = 1_000_007;

// What a call hands back: whether it is refused, and the head of the store.
pub type Ended = Filled<Result<(), Refusal>>;

// The pool that a call is given, and the head of the store that it is lent.
#[derive(Clone, Copy, Debug, PartialEq, Eq)]
pub struct Given {
    pub pool: Pool,
    pub head: Pool,
}

impl Given {
    // With a head that no call handed back.
    fn marked(pool: Pool) -> Given {
        Given {
            pool,
            head: pool_of(MARK, MARK + 1, MARK + 2),
        }
    }

    // The head that a call has to hand back: the pool, or on a refusal the one that came.
    fn head_after(self, outcome: Result<(), Refusal>) -> Pool {
        if outcome.is_ok() {
            self.pool
        } else {
            self.head
        }
    }

    // What a call that is lent no store would hand back of one.
    fn ended(self, outcome: Result<(), Refusal>) -> Ended {
        Filled {
            answer: outcome,
            head: self.head_after(outcome),
        }
    }
}

fn column(library: Library, given: Given, store: &mut StoreMut<'_>, units: &mut [u32]) -> Ended {
    let Given { pool, head } = given;
    match library {
        Library::Pool => pool::column(pool, head, store, units),
        Library::Screen => screen::column(pool, head, store, units),
        Library::BetaBinomial => given.ended(beta_binomial::column(pool, units)),
    }
}

fn losses(
    library: Library,
    given: Given,
    tranches: Tranches,
    store: &mut StoreMut<'_>,
) -> Filled<Answer> {
    let Given { pool, head } = given;
    let Tranches { count, records } = tranches;
    match library {
        Library::Pool => pool::tranche_losses(pool, head, records, count, store),
        Library::Screen => screen::tranche_losses(pool, head, records, count, store),
        Library::BetaBinomial => {
            let answer = beta_binomial::tranche_losses(pool, records, count);
            Filled {
                answer,
                head: given.head_after(answer.outcome),
            }
        }
    }
}

fn answer_fill(rt: &impl Print, given: Given, store: &mut StoreMut<'_>) -> io::Result<Ended> {
    let filled = pool::fill(given.pool, given.head, store);
    write_outcome(rt, filled.answer)?;
    Ok(filled)
}

fn answer_row(rt: &impl Print, given: Given, k: u32, significands: &[u32]) -> io::Result<Ended> {
    let n = given.pool.assets;
    write_row(rt, pool::row(n, k, significands))?;
    Ok(given.ended(pool::row_refusal(n, k, significands)))
}

fn answer_column(
    rt: &impl Print,
    library: Library,
    given: Given,
    length: usize,
    store: &mut StoreMut<'_>,
) -> io::Result<Ended> {
    let mut units = [MARK; LARGE_ROWS];
    let filled = column(library, given, store, first_mut(&mut units, length));
    write_list(rt, "rows", given.pool, filled.answer, &units, length)?;
    Ok(filled)
}

fn answer_shifts(
    rt: &impl Print,
    given: Given,
    length: usize,
    store: &mut StoreMut<'_>,
) -> io::Result<Ended> {
    let mut shifts = [INTEGER_MARK; LARGE_ROWS];
    let lent = first_mut(&mut shifts, length);
    let filled = shift::shift_list(given.pool, given.head, store, lent);
    write_list(rt, "list", given.pool, filled.answer, &shifts, length)?;
    Ok(filled)
}

fn answer_losses(
    rt: &impl Print,
    library: Library,
    given: Given,
    tranches: Tranches,
    store: &mut StoreMut<'_>,
) -> io::Result<Ended> {
    let Filled { answer, head } = losses(library, given, tranches, store);
    write_answer(rt, answer, tranches.count)?;
    Ok(Filled {
        answer: answer.outcome,
        head,
    })
}

fn answer_layer(
    rt: &impl Print,
    given: Given,
    i: u32,
    j: u32,
    store: &mut StoreMut<'_>,
) -> io::Result<Ended> {
    let Filled { answer, head } = pool::layer_loss(given.pool, given.head, i, j, store);
    write_layer(rt, answer)?;
    Ok(Filled {
        answer: answer.map(|_| ()),
        head,
    })
}

fn answer_check(
    rt: &impl Print,
    given: Given,
    claims: &[u32],
    store: &mut StoreMut<'_>,
) -> io::Result<Ended> {
    let Filled { answer, head } = column_check::check_column(given.pool, given.head, claims, store);
    write_verdict(rt, answer, claims)?;
    Ok(Filled {
        answer: answer.map(|_| ()),
        head,
    })
}

// Makes a call and writes what it answers.
pub fn answer(
    rt: &impl Print,
    call: Call,
    given: Given,
    claims: &[u32],
    store: &mut StoreMut<'_>,
) -> io::Result<Ended> {
    match call {
        Call::Fill => answer_fill(rt, given, store),
        Call::Row(k) => answer_row(rt, given, k, store.low_significands),
        Call::Column(library, length) => answer_column(rt, library, given, length, store),
        Call::Shifts(length) => answer_shifts(rt, given, length, store),
        Call::Loss(library, tranche) => answer_losses(rt, library, given, one(tranche), store),
        Call::Losses(library, tranches) => answer_losses(rt, library, given, tranches, store),
        Call::Layer(i, j) => answer_layer(rt, given, i, j, store),
        Call::Check => answer_check(rt, given, claims, store),
    }
}

// Runs a call on arrays that hold another pool's store, and looks at the head that it hands back. A pool of no assets is refused,
// and leaves the marks.
fn run_on(
    rt: &impl Print,
    other: Pool,
    call: Call,
    pool: Pool,
    claims: &[u32],
    lengths: Lengths,
) -> io::Result<()> {
    // Four arrays, and no `Arrays`, which is made and then copied: this is done for each case.
    let mut low_significands = [MARK; LARGE_PLACES];
    let mut high_significands = [MARK; LARGE_PLACES];
    let mut low_exponents = [INTEGER_MARK; LARGE_PLACES];
    let mut high_exponents = [INTEGER_MARK; LARGE_PLACES];
    let mut store = StoreMut {
        low_significands: &mut low_significands,
        high_significands: &mut high_significands,
        low_exponents: &mut low_exponents,
        high_exponents: &mut high_exponents,
    };
    pool::fill(other, other, &mut store);
    write_given(rt, other, call, pool, lengths)?;
    let given = Given::marked(pool);
    let mut lent = StoreMut {
        low_significands: first_mut(&mut low_significands, lengths.low_significands),
        high_significands: first_mut(&mut high_significands, lengths.high_significands),
        low_exponents: first_mut(&mut low_exponents, lengths.low_exponents),
        high_exponents: first_mut(&mut high_exponents, lengths.high_exponents),
    };
    let ended = answer(rt, call, given, claims, &mut lent)?;
    write_wrong_head(rt, ended.head, given.head_after(ended.answer))?;
    let whole_store = Store {
        low_significands: &low_significands,
        high_significands: &high_significands,
        low_exponents: &low_exponents,
        high_exponents: &high_exponents,
    };
    write_store(rt, call, lengths, &whole_store)
}

// On the first places of marked arrays.
pub fn run(rt: &impl Print, call: Call, pool: Pool, lengths: Lengths) -> io::Result<()> {
    run_on(rt, pool_of(0, 0, 0), call, pool, &[], lengths)
}

// A check of claims, on the first places of arrays that hold another pool's store.
pub fn run_check(
    rt: &impl Print,
    other: Pool,
    pool: Pool,
    claims: &[u32],
    lengths: Lengths,
) -> io::Result<()> {
    run_on(rt, other, Call::Check, pool, claims, lengths)
}

pub fn beyond(call: Call) -> u32 {
    match call {
        Call::Shifts(_) => BEYOND_REPORT,
        _ => BEYOND,
    }
}

// Enough places for a pool that the call accepts.
fn ample(call: Call, pool: Pool) -> Lengths {
    if 64 < pool.assets && pool.assets < beyond(call) {
        whole()
    } else {
        alike(PLACES)
    }
}

// On enough places of marked arrays.
pub fn run_ample(rt: &impl Print, call: Call, pool: Pool) -> io::Result<()> {
    run(rt, call, pool, ample(call, pool))
}

// The same of each pool, by assets, probability and correlation.
pub fn run_each(rt: &impl Print, call: Call, pools: &[(u32, u32, u32)]) -> io::Result<()> {
    for (assets, probability, correlation) in pools {
        run_ample(rt, call, pool_of(*assets, *probability, *correlation))?;
    }
    Ok(())
}

// Pools, by assets, probability and correlation, and a tranche of each, by recovery and attachments.
pub fn run_losses(
    rt: &impl Print,
    library: Library,
    cases: &[((u32, u32, u32), (u32, u32, u32))],
) -> io::Result<()> {
    for ((assets, probability, correlation), (recovery, lower, upper)) in cases {
        let tranche = tranche_of(*recovery, *lower, *upper);
        let pool = pool_of(*assets, *probability, *correlation);
        run_ample(rt, Call::Loss(library, tranche), pool)?;
    }
    Ok(())
}

// On enough places of arrays that hold another pool's store.
pub fn run_over(rt: &impl Print, other: Pool, call: Call, pool: Pool) -> io::Result<()> {
    let lengths = if other.assets > 64 {
        whole()
    } else {
        ample(call, pool)
    };
    run_on(rt, other, call, pool, &[], lengths)
}

// The first rows of the pool's own store.
pub fn filled_rows(rt: &impl Print, pool: Pool, count: u32) -> io::Result<()> {
    let mut arrays = Arrays::filled_with(MARK, INTEGER_MARK);
    pool::fill(pool, pool, &mut arrays.lent_mut(whole()));
    for k in 0..count {
        write_given(rt, pool, Call::Row(k), pool, whole())?;
        write_row(rt, pool::row(pool.assets, k, &arrays.low_significands))?;
        println!(rt; "")?;
    }
    Ok(())
}

// Each place holds its own number.
fn numbered() -> [u32; LARGE_PLACES] {
    let mut places = [0u32; LARGE_PLACES];
    for (place, i) in places.iter_mut().zip(0..) {
        *place = i;
    }
    places
}

pub fn row(rt: &impl Print, n: u32, k: u32, length: usize) -> io::Result<()> {
    let places = numbered();
    let lent = first(&places, length);
    print!(rt; "row {n} {k} length {length}")?;
    write_outcome(rt, pool::row_refusal(n, k, lent))?;
    write_part(rt, pool::row(n, k, lent))
}
