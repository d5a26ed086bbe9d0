// The answer of the program `column` to its input, whole.
#![tactic(auto)]

ghost use Rattle.std.specs.Prelude.{◌≤◌, ◌≡◌, length, take};
ghost use Rattle.model.specs.CorrelatedBinomial.{defaults};
ghost use Rattle.kept.specs.declared.Side.TheVariants.{Low};
ghost use Rattle.steps.specs.Column.{tenths};
ghost use Rattle.steps.specs.CorrelatedBinomial.{kept_defaults};
ghost use Rattle.steps.specs.Inputs.{report_pool, tenths_for};
ghost use Rattle.steps.specs.Promises.{HoldsColumn};
ghost use Rattle.grounds.specs.Grounds.{first_ground, pool_grounds};
ghost use Rattle.reply.specs.Reply.{AnswersPool, AnswersInput, AnswersStart, Carries};

use pool::{Pool, StoreMut};
use std::ops::DerefSlice;
use steps::REPORT_POOL;
use text::line::read_line;
use text::table::{column_text, refused_line, refused_text};

// The rows of the largest pool that is answered: 65.
const ROWS: usize = REPORT_POOL as usize + 1;

// The places of its store: 2,145, the entries of its rows.
const STORE: usize = ROWS * (ROWS + 1) / 2;

// The bytes of the longest text: 1,125, a header of 20 and 65 lines of at most 17.
pub const TEXT: usize = 20 + ROWS * 17;

// Those of the longest refusal, `refused line`.
const REFUSAL: usize = 13;

// How many bytes of an input are read. A line has at most 18, so that one byte more decides.
pub const START: usize = 64;

const EMPTY: Pool = Pool {
    assets: 0,
    probability: 0,
    correlation: 0,
};

// A text of the first `length` bytes.
#[derive(Clone, Copy, Debug, PartialEq, Eq)]
pub struct Reply {
    pub text: [u8; TEXT],
    pub length: usize,
}

// A reply acts as the slice of its bytes: all of the array where `length` is above its own.
impl DerefSlice for Reply {
    type Elem = u8;

    ghost deref_gives = { λ reply bytes. bytes ≡ take reply.length reply.text };

    fn deref(&self) -> &[u8] {
        &self.text[..self.length.min(TEXT)]
    }
}

// A text, with zeros behind it.
fn padded(text: &[u8]) -> Reply
    requires { length text.now ≤ TEXT }
    ensures { Carries (λ bytes. bytes ≡ text.now) result }
{
    let mut bytes = [0u8; TEXT];
    bytes[..text.len()].copy_from_slice(text);
    Reply {
        text: bytes,
        length: text.len(),
    }
}

// The column of a pool that no ground refuses.
fn column_units(pool: Pool) -> [u32; ROWS]
    requires { first_ground (pool_grounds report_pool pool.assets pool.probability pool.correlation) ≡ 0 }
    ensures { HoldsColumn (tenths (tenths_for pool.assets))
        (defaults pool.assets pool.probability pool.correlation)
        (kept_defaults Low pool.assets pool.probability pool.correlation) result }
{
    let mut low_significands = [0; STORE];
    let mut high_significands = [0; STORE];
    let mut low_exponents = [0; STORE];
    let mut high_exponents = [0; STORE];
    let mut units = [0; ROWS];
    let mut store = StoreMut {
        low_significands: &mut low_significands[..],
        high_significands: &mut high_significands[..],
        low_exponents: &mut low_exponents[..],
        high_exponents: &mut high_exponents[..],
    };
    pool::column(pool, EMPTY, &mut store, &mut units);
    units
}

// The table of such a column.
#[tactic(auto, unfolding(steps::specs::Inputs::report_pool, steps::specs::Column::units_of_certainty, model::specs::CorrelatedBinomial::defaults), using(crate::specs::Reply::Laws::carried, crate::specs::Reply::Laws::table_answer, grounds::specs::Grounds::Laws::pool_accepted))]
fn table_reply(pool: Pool) -> Reply
    requires { first_ground (pool_grounds report_pool pool.assets pool.probability pool.correlation) ≡ 0 }
    ensures { Carries (AnswersPool pool.assets pool.probability pool.correlation) result }
{
    padded(&column_text::<TEXT>(pool.assets, &column_units(pool)))
}

// The answer to a line: the table of the pool's column, or the number of the refusal.
#[tactic(auto, unfolding(steps::specs::Inputs::report_pool), using(crate::specs::Reply::Laws::carried, crate::specs::Reply::Laws::refusal_answer))]
fn column_reply(pool: Pool) -> Reply
    ensures { Carries (AnswersPool pool.assets pool.probability pool.correlation) result }
{
    match grounds::pool_refusal(REPORT_POOL, pool) {
        Ok(()) => table_reply(pool),
        Err(refusal) => padded(&refused_text::<REFUSAL>(refusal.into())),
    }
}

// Any bytes may be given.
#[tactic(auto, using(crate::specs::Reply::Laws::line_carried, crate::specs::Reply::Laws::carried, crate::specs::Reply::Laws::no_line_answer))]
fn reply_to(input: &[u8]) -> Reply
    ensures { Carries (AnswersInput input.now) result }
{
    match read_line(input) {
        Some(pool) => column_reply(pool),
        None => padded(&refused_line::<REFUSAL>()),
    }
}

// The first bytes of an input, and how many there are: all of it, or as many as there is room for. The answer is that to the whole
// input, whatever follows them. The buffer comes as an array, so that no shorter one can be handed over.
#[tactic(auto, using(crate::specs::Reply::Laws::part_carried))]
pub fn reply_to_start(start: [u8; START], count: usize) -> Reply
    ensures { Carries (AnswersStart start count) result }
{
    if count < START {
        return reply_to(&start[..count]);
    }
    reply_to(&start)
}
