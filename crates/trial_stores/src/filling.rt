// A call that fills the store, from standard input.
use super::read_head;
use pool::Pool;
use std::io;
use trial_inputs::given::{
    read_claims, read_length, read_lengths, read_library, read_pool, read_tranches,
};
use trial_lines::shown::Shown;
use trial_lines::{Call, pool_of, whole, write_given, write_head, write_store};
use trial_pool::arrays::Arrays;
use trial_pool::{Given, answer};
use trial_support::read_number;

fn read_call(rt: &impl Input) -> io::Result<Call> {
    Ok(match read_number(rt)? {
        0 => Call::Fill,
        1 => Call::Column(read_library(rt)?, read_length(rt)?),
        2 => Call::Shifts(read_length(rt)?),
        3 => Call::Losses(read_library(rt)?, read_tranches(rt)?),
        4 => Call::Layer(read_number(rt)?, read_number(rt)?),
        _ => Call::Check,
    })
}

// Makes the call, and gives the head that it hands back.
pub(crate) fn run_call(
    rt: &(impl Input + Print),
    held: Pool,
    arrays: &mut Arrays,
) -> io::Result<Pool> {
    let head = read_head(rt, held)?;
    let call = read_call(rt)?;
    let pool = read_pool(rt)?;
    let lengths = read_lengths(rt)?;
    let count = read_length(rt)?;
    let claims = read_claims(rt, count)?;
    let Some(claims) = claims.get(..count) else {
        return Ok(held);
    };
    print!(rt; "head {} ", Shown(head))?;
    write_given(rt, pool_of(0, 0, 0), call, pool, lengths)?;
    let given = Given { pool, head };
    let ended = answer(rt, call, given, claims, &mut arrays.lent_mut(lengths))?;
    write_head(rt, ended.head)?;
    write_store(rt, call, lengths, &arrays.lent(whole()))?;
    Ok(ended.head)
}
