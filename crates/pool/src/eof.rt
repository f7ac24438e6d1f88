// The EOF event of a pool's transfer.
ghost use Rattle.std.specs.Prelude.{◌≡◌, [], ◌++◌};
ghost use Rattle.outcomes.specs.Outcome.{accepted};
ghost use Rattle.outcomes.specs.Checks.{verdict_case, first_of};
ghost use Rattle.reception.specs.Eof.{eof_checks, eof_case};
ghost use Rattle.reception.specs.History.{Eof};
ghost use Rattle.pooling.specs.Pool.{record_at};
ghost use Rattle.pooling.specs.Share.{pool_checks, own_list};
ghost use Rattle.pooling.specs.Events.{event_outcome, event_pool, event_list};

use crate::inner::place;
use event_checks::eof::eof_checks;
use outcomes::Refusal;
use pooling::{Pool, PoolDone};
use reception::Reception;
use resizing::inner::changes::finish_in;
use sharing::inner::own::own;

// The checks before that of the room. The list is read once.
pub fn pool_eof_checks(pool: Pool, list: &[u64], i: usize, size: u64) -> Result<(), Refusal>
    ensures { verdict_case result ≡ first_of (pool_checks pool list.now i ++ eof_checks (record_at pool i) (own_list pool list.now i) size) (accepted []) }
{
    let (rec, part) = own(pool, list, i)?;
    eof_checks(rec, part, size)
}

// The EOF event of transfer i: the pool is changed where it lies.
pub fn pool_eof_event(pool: &mut Pool, list: &mut [u64], i: usize, size: u64) -> Result<(), Refusal>
    ensures { (eof_case result ≡ event_outcome pool.old list.old i (Eof size))
        × ((pool.new ≡ event_pool pool.old list.old i (Eof size))
        × (list.new ≡ event_list pool.old list.old i (Eof size))) }
{
    pool_eof_checks(*pool, list, i, size)?;
    let rec = pool.records[i];
    let place = place(*pool, list.len() / 2, i);
    let left = finish_in(list, place, rec.progress, rec.missing, size);
    let count = left.ok_or(Refusal::StoreFull)?;
    pool.records[i] = Reception {
        progress: size,
        count,
        sized: true,
        size,
        ..rec
    };
    Ok(())
}

// The EOF event on a pool by value, and the lent list.
pub fn pool_eof_core(mut pool: Pool, list: &mut [u64], i: usize, size: u64) -> PoolDone<()>
    ensures { (eof_case result.answer ≡ event_outcome pool list.old i (Eof size))
        × ((result.pool ≡ event_pool pool list.old i (Eof size))
        × (list.new ≡ event_list pool list.old i (Eof size))) }
{
    let answer = pool_eof_event(&mut pool, list, i, size);
    PoolDone { answer, pool }
}
