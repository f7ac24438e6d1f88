// Inner: the numbers of a pool. Each function asks for what its callers have checked. The loops but one go by place, since each step of
// theirs reads two of the pool's arrays.
ghost use Rattle.std.specs.Prelude.{◌≡◌, ◌||◌, ◌<◌, ◌≤◌, ltb};
ghost use Rattle.ranges.specs.Store.{most_pairs};
ghost use Rattle.pooling.specs.Pool.{most_transfers, count_at, floor_at, sum, any_below, is_floor_above, is_bad_settings, claim_at, claimed, is_no_room};
ghost use Rattle.pooling.specs.Share.{base, is_past_limit, is_bad_share};

use pooling::Pool;

// A pool has at most eight transfers, a list at most 4,096 slots.
const MOST_TRANSFERS: usize = 8;

const MOST_SLOTS: usize = 4096;

// Whether a floor is above its limit, or the floors sum to more than the slots. The sum stops before it passes them.
fn bad_floors(pool: Pool, slots: usize) -> bool
    requires { pool.used ≤ most_transfers }
    ensures { result ≡ (any_below (is_floor_above pool) pool.used || ltb slots (sum (floor_at pool) pool.used)) }
{
    let mut sum = 0;
    for k in 0..pool.used {
        let floor = pool.floors[k];
        if pool.limits[k] < floor || slots - sum < floor {
            return true;
        }
        sum += floor;
    }
    false
}

// 23 of the settings.
pub fn bad_settings(pool: Pool, slots: usize) -> bool
    ensures { result ≡ is_bad_settings pool slots }
{
    MOST_TRANSFERS < pool.used || bad_floors(pool, slots)
}

// The larger of held and floor.
fn claim(pool: Pool, k: usize) -> usize
    requires { k < most_transfers }
    ensures { result ≡ claim_at pool k }
{
    pool.records[k].count.max(pool.floors[k])
}

// Whether a count is above its limit, or the claims sum to more than the slots. The sum stops before it passes them.
fn bad_claims(pool: Pool, slots: usize) -> bool
    requires { pool.used ≤ most_transfers }
    ensures { result ≡ (any_below (is_past_limit pool) pool.used || ltb slots (claimed pool)) }
{
    let mut sum = 0;
    for k in 0..pool.used {
        let more = claim(pool, k);
        if pool.limits[k] < pool.records[k].count || slots - sum < more {
            return true;
        }
        sum += more;
    }
    false
}

// 10 of the numbers.
pub fn bad_share(pool: Pool, list: &[u64]) -> bool
    requires { pool.used ≤ most_transfers }
    ensures { result ≡ is_bad_share pool list.now }
{
    let slots = list.len() / 2;
    if list.len() % 2 == 1 || MOST_SLOTS < slots {
        return true;
    }
    bad_claims(pool, slots)
}

// How many ranges the first n transfers hold.
pub fn held_before(pool: Pool, n: usize) -> usize
    requires { (n ≤ most_transfers) × (base pool n ≤ most_pairs) }
    ensures { result ≡ base pool n }
{
    let mut sum = 0;
    for rec in &pool.records[..n] {
        sum += rec.count;
    }
    sum
}

// The sum of the larger of held and floor.
fn claims(pool: Pool) -> usize
    requires { (pool.used ≤ most_transfers) × (claimed pool ≤ most_pairs) }
    ensures { result ≡ claimed pool }
{
    let mut sum = 0;
    for k in 0..pool.used {
        sum += claim(pool, k);
    }
    sum
}

// Whether there is no room for one range more of transfer i.
pub fn no_room(pool: Pool, slots: usize, i: usize) -> bool
    requires used_le_most_transfers { (pool.used ≤ most_transfers) × (claimed pool ≤ most_pairs) }
    requires i_lt_used { (i < pool.used) × (count_at pool i ≤ most_pairs) }
    ensures { result ≡ is_no_room pool slots i }
{
    let held = pool.records[i].count;
    pool.limits[i] < held + 1 || (pool.floors[i] <= held && claims(pool) == slots)
}
