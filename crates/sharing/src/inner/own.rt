// Inner: a transfer of a pool as a reception of its own.
ghost use Rattle.std.specs.Prelude.{◌≡◌, [], ◌+◌, ◌*◌, ◌<◌, ◌≤◌, length};
ghost use Rattle.std.specs.Result.{IfOk};
ghost use Rattle.ranges.specs.Store.{most_pairs};
ghost use Rattle.outcomes.specs.Outcome.{accepted};
ghost use Rattle.outcomes.specs.Checks.{first_of};
ghost use Rattle.outcomes.specs.Answered.{answered};
ghost use Rattle.pooling.specs.Pool.{most_transfers, record_at, count_at};
ghost use Rattle.pooling.specs.Share.{base, own_part};
ghost use Rattle.sharing.specs.Inner.{other_checks, unnumbered};

use crate::inner::checks::pool_checks;
use crate::inner::settings::held_before;
use outcomes::Refusal;
use pooling::Pool;
use reception::Reception;

// The record of transfer i, and the part of the list where its ranges lie.
fn transfer<'a>(pool: Pool, list: &'a [u64], i: usize) -> (Reception, &'a [u64])
    requires { (i < most_transfers) × ((base pool i + count_at pool i ≤ most_pairs) × (2 * (base pool i + count_at pool i) ≤ length list.now)) }
    ensures { (result.0 ≡ record_at pool i) × (result.1.now ≡ own_part pool list.now i) }
{
    let rec = pool.records[i];
    let start = held_before(pool, i);
    let end = start + rec.count;
    (rec, &list[2 * start..2 * end])
}

// The same where neither 23 nor, but for the record of transfer i, 10 refuses.
pub fn own<'a>(pool: Pool, list: &'a [u64], i: usize) -> Result<(Reception, &'a [u64]), Refusal>
    ensures checked { answered unnumbered result ≡ first_of (other_checks pool list.now i) (accepted []) }
    ensures lent { IfOk result (λ o. (o.0 ≡ record_at pool i) × (o.1.now ≡ own_part pool list.now i)) }
{
    pool_checks(pool, list, i)?;
    Ok(transfer(pool, list, i))
}
