// The metadata event of a pool's transfer.
ghost use Rattle.std.specs.Prelude.{◌≡◌, [], ◌++◌};
ghost use Rattle.outcomes.specs.Outcome.{accepted};
ghost use Rattle.outcomes.specs.Checks.{verdict_case, first_of};
ghost use Rattle.reception.specs.Metadata.{metadata_checks, metadata_case};
ghost use Rattle.reception.specs.History.{Metadata};
ghost use Rattle.pooling.specs.Pool.{record_at};
ghost use Rattle.pooling.specs.Share.{pool_checks, own_list};
ghost use Rattle.pooling.specs.Events.{event_outcome, event_pool};

use event_checks::metadata::metadata_checks;
use outcomes::Refusal;
use pooling::{Pool, PoolDone};
use sharing::inner::own::own;

// The checks. The list is read once.
pub fn pool_metadata_checks(pool: Pool, list: &[u64], i: usize) -> Result<(), Refusal>
    ensures { verdict_case result ≡ first_of (pool_checks pool list.now i ++ metadata_checks (record_at pool i) (own_list pool list.now i)) (accepted []) }
{
    let (rec, part) = own(pool, list, i)?;
    metadata_checks(rec, part)
}

// The metadata event of transfer i: the pool is changed where it lies; the list is only read.
pub fn pool_metadata_event(pool: &mut Pool, list: &[u64], i: usize) -> Result<(), Refusal>
    ensures { (metadata_case result ≡ event_outcome pool.old list.now i Metadata)
        × (pool.new ≡ event_pool pool.old list.now i Metadata) }
{
    pool_metadata_checks(*pool, list, i)?;
    pool.records[i].missing = false;
    Ok(())
}

// The metadata event on a pool by value; the list is only read.
pub fn pool_metadata_core(mut pool: Pool, list: &[u64], i: usize) -> PoolDone<()>
    ensures { (metadata_case result.answer ≡ event_outcome pool list.now i Metadata)
        × (result.pool ≡ event_pool pool list.now i Metadata) }
{
    let answer = pool_metadata_event(&mut pool, list, i);
    PoolDone { answer, pool }
}
