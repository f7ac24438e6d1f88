// Inner: where the ranges of a pool's transfer lie. It asks for what its callers have checked.
ghost use Rattle.std.specs.Prelude.{◌≡◌, ◌+◌, ◌<◌, ◌≤◌};
ghost use Rattle.ranges.specs.Store.{most_pairs};
ghost use Rattle.pooling.specs.Pool.{most_transfers, count_at, claimed};
ghost use Rattle.pooling.specs.Share.{base, total};
ghost use Rattle.pool.specs.Inner.{place_of};

use pooling::Pool;
use resizing::inner::place::Place;
use sharing::inner::settings::{held_before, no_room};

// Where the ranges of transfer i lie in a list of so many slots.
pub fn place(pool: Pool, slots: usize, i: usize) -> Place
    requires known { (i < pool.used) × (pool.used ≤ most_transfers) }
    requires sums { (base pool i + count_at pool i ≤ total pool) × ((total pool ≤ most_pairs) × (claimed pool ≤ most_pairs)) }
    ensures { result ≡ place_of pool slots i }
{
    Place {
        at: held_before(pool, i),
        count: pool.records[i].count,
        total: held_before(pool, pool.used),
        full: no_room(pool, slots, i),
    }
}
