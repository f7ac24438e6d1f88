// The three events of a transfer on C's pool by value, whole.
ghost use Rattle.std.specs.Prelude.{◌≡◌};
ghost use Rattle.reception.specs.History.{Data, Metadata, Eof};
ghost use Rattle.pooling.specs.Events.{event_outcome, event_list};
ghost use Rattle.answers.specs.Answer.{answer_of};
ghost use Rattle.c_pool.specs.Input.{pool_in};
ghost use Rattle.c_pool.specs.Output.{pool_after};

use crate::inner::with_record;
use crate::{PoolOut, PusmarkePool};
use answers::PusmarkeAnswer;
use pool::data::pool_data_core;
use pool::eof::pool_eof_core;
use pool::metadata::pool_metadata_core;
use pooling::Pool;

pub fn pool_data_whole(
    pool: PusmarkePool,
    list: &mut [u64],
    i: usize,
    offset: u64,
    length: u64,
) -> PoolOut
    ensures { (result.answer ≡ answer_of (event_outcome (pool_in pool) list.old i (Data offset length)))
        × ((result.pool ≡ pool_after pool list.old i (Data offset length))
        × (list.new ≡ event_list (pool_in pool) list.old i (Data offset length))) }
{
    let own = Pool::from(pool);
    let done = pool_data_core(own, list, i, offset, length);
    let answer = PusmarkeAnswer::from(done.answer);
    if done.answer.is_err() {
        return PoolOut { answer, pool };
    }
    let next = pool.records[i].advanced_to(done.pool.records[i]);
    PoolOut {
        answer,
        pool: with_record(pool, i, next),
    }
}

// The list is only read.
pub fn pool_metadata_whole(pool: PusmarkePool, list: &[u64], i: usize) -> PoolOut
    ensures { (result.answer ≡ answer_of (event_outcome (pool_in pool) list.now i Metadata))
        × (result.pool ≡ pool_after pool list.now i Metadata) }
{
    let own = Pool::from(pool);
    let done = pool_metadata_core(own, list, i);
    let answer = PusmarkeAnswer::from(done.answer);
    if done.answer.is_err() {
        return PoolOut { answer, pool };
    }
    let marked = pool.records[i].marked_by(done.pool.records[i]);
    PoolOut {
        answer,
        pool: with_record(pool, i, marked),
    }
}

pub fn pool_eof_whole(pool: PusmarkePool, list: &mut [u64], i: usize, size: u64) -> PoolOut
    ensures { (result.answer ≡ answer_of (event_outcome (pool_in pool) list.old i (Eof size)))
        × ((result.pool ≡ pool_after pool list.old i (Eof size))
        × (list.new ≡ event_list (pool_in pool) list.old i (Eof size))) }
{
    let own = Pool::from(pool);
    let done = pool_eof_core(own, list, i, size);
    let answer = PusmarkeAnswer::from(done.answer);
    if done.answer.is_err() {
        return PoolOut { answer, pool };
    }
    let last = pool.records[i].ended_by(done.answer, done.pool.records[i]);
    PoolOut {
        answer,
        pool: with_record(pool, i, last),
    }
}
