// A pool without transfers, and one transfer more.
ghost use Rattle.std.specs.Prelude.{◌≡◌};
ghost use Rattle.c_pool.specs.Output.{empty_pool, added};

use crate::PusmarkePool;
use c_values::PusmarkeReception;

pub fn empty_pool() -> PusmarkePool
    ensures { result ≡ empty_pool }
{
    let none = PusmarkeReception {
        progress: 0,
        count: 0,
        narrow: 0,
        missing: 0,
        sized: 0,
        size: 0,
    };
    PusmarkePool {
        used: 0,
        records: [none; 8],
        floors: [0; 8],
        limits: [0; 8],
    }
}

// A ninth transfer makes a pool that every call refuses.
pub fn one_more(pool: PusmarkePool, narrow: u64, floor: usize, limit: usize) -> PusmarkePool
    ensures { result ≡ added pool narrow floor limit }
{
    let mut next = pool;
    if pool.used < 8 {
        let rec = PusmarkeReception::fresh(narrow);
        let at = pool.used;
        next.used = at + 1;
        next.records[at] = rec;
        next.floors[at] = floor;
        next.limits[at] = limit;
        return next;
    }
    next.used = 9;
    next
}
