// The data event of a pool's transfer.
ghost use Rattle.std.specs.Prelude.{◌≡◌, [], ◌++◌};
ghost use Rattle.outcomes.specs.Outcome.{accepted};
ghost use Rattle.outcomes.specs.Checks.{verdict_case, first_of};
ghost use Rattle.reception.specs.Data.{data_checks, data_case};
ghost use Rattle.reception.specs.History.{Data};
ghost use Rattle.pooling.specs.Pool.{record_at};
ghost use Rattle.pooling.specs.Share.{pool_checks, own_list};
ghost use Rattle.pooling.specs.Events.{event_outcome, event_pool, event_list};

use crate::inner::place;
use event_checks::data::data_checks;
use outcomes::Refusal;
use pooling::{Pool, PoolDone};
use reception::Reception;
use reception::data::Received;
use resizing::inner::changes::change_in;
use sharing::inner::own::own;

// The checks before that of the room. The list is read once.
pub fn pool_data_checks(
    pool: Pool,
    list: &[u64],
    i: usize,
    offset: u64,
    length: u64,
) -> Result<(), Refusal>
    ensures { verdict_case result ≡ first_of (pool_checks pool list.now i ++ data_checks (record_at pool i) (own_list pool list.now i) offset length) (accepted []) }
{
    let (rec, part) = own(pool, list, i)?;
    data_checks(rec, part, offset, length)
}

// The data event of transfer i: the pool is changed where it lies.
pub fn pool_data_event(
    pool: &mut Pool,
    list: &mut [u64],
    i: usize,
    offset: u64,
    length: u64,
) -> Result<Received, Refusal>
    ensures { (data_case result ≡ event_outcome pool.old list.old i (Data offset length))
        × ((pool.new ≡ event_pool pool.old list.old i (Data offset length))
        × (list.new ≡ event_list pool.old list.old i (Data offset length))) }
{
    pool_data_checks(*pool, list, i, offset, length)?;
    let rec = pool.records[i];
    let place = place(*pool, list.len() / 2, i);
    let end = offset + length;
    let left = change_in(list, place, rec.progress, rec.missing, offset, end);
    let count = left.ok_or(Refusal::StoreFull)?;
    let progress = rec.progress.max(end);
    pool.records[i] = Reception {
        progress,
        count,
        ..rec
    };
    if rec.missing {
        return Ok(Received::Noticed);
    }
    Ok(Received::Kept)
}

// The data event on a pool by value, and the lent list.
pub fn pool_data_core(
    mut pool: Pool,
    list: &mut [u64],
    i: usize,
    offset: u64,
    length: u64,
) -> PoolDone<Received>
    ensures { (data_case result.answer ≡ event_outcome pool list.old i (Data offset length))
        × ((result.pool ≡ event_pool pool list.old i (Data offset length))
        × (list.new ≡ event_list pool list.old i (Data offset length))) }
{
    let answer = pool_data_event(&mut pool, list, i, offset, length);
    PoolDone { answer, pool }
}
