// Inner: the checks 23 and 10 of a pool. The list is read once: the record of the transfer that is named is left to its own checks.
ghost use Rattle.std.specs.Prelude.{◌≡◌, [], ◌*◌, ◌<◌, ◌≤◌, length};
ghost use Rattle.ranges.specs.Store.{most_numbers};
ghost use Rattle.outcomes.specs.Outcome.{accepted};
ghost use Rattle.outcomes.specs.Checks.{verdict_case, first_of};
ghost use Rattle.reception.specs.Record.{is_bad_record};
ghost use Rattle.pooling.specs.Pool.{most_transfers, any_below};
ghost use Rattle.pooling.specs.Share.{base, total};
ghost use Rattle.sharing.specs.Inner.{is_bad_other, other_checks};

use crate::inner::settings::{bad_settings, bad_share};
use outcomes::Refusal;
use pooling::Pool;
use reception::Reception;
use record_checks::inner::wrong_rest;
use searches::bad_store;

// 10 of a record over its list.
fn bad_record(rec: Reception, list: &[u64]) -> bool
    ensures { result ≡ is_bad_record list.now rec }
{
    let top = rec.width.limit();
    if bad_store(list, rec.count, top) || top < rec.progress {
        return true;
    }
    wrong_rest(rec, list)
}

// Whether transfer k, whose ranges lie from place `at` on, is 10 and not the one that is named.
fn bad_other(pool: Pool, list: &[u64], i: usize, k: usize, at: usize) -> bool
    requires k_lt_used { (k < pool.used) × ((pool.used ≤ most_transfers) × (at ≡ base pool k)) }
    requires pool_in_bounds { (2 * total pool ≤ length list.now) × (length list.now ≤ most_numbers) }
    ensures { result ≡ is_bad_other pool list.now i k }
{
    if k == i {
        return false;
    }
    let rec = pool.records[k];
    let next = at + rec.count;
    bad_record(rec, &list[2 * at..2 * next])
}

// Whether a transfer other than the one named is 10.
fn any_other(pool: Pool, list: &[u64], i: usize) -> bool
    requires used_le_most_transfers { pool.used ≤ most_transfers }
    requires pool_in_bounds { (2 * total pool ≤ length list.now) × (length list.now ≤ most_numbers) }
    ensures { result ≡ any_below (is_bad_other pool list.now i) pool.used }
{
    let mut at = 0;
    for k in 0..pool.used {
        if bad_other(pool, list, i, k, at) {
            return true;
        }
        at += pool.records[k].count;
    }
    false
}

// 23, and 10 but for the record of transfer i.
pub fn pool_checks(pool: Pool, list: &[u64], i: usize) -> Result<(), Refusal>
    ensures { verdict_case result ≡ first_of (other_checks pool list.now i) (accepted []) }
{
    if bad_settings(pool, list.len() / 2) || pool.used <= i {
        return Err(Refusal::BadPool);
    }
    if bad_share(pool, list) || any_other(pool, list, i) {
        return Err(Refusal::BadStore);
    }
    Ok(())
}
