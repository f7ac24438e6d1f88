// Several transfers that share one list: the pool, and what its events answer and leave. The calls are in the crates pool and
// pool_report.
#![tactic(auto)]

ghost use Rattle.std.specs.Prelude.{◌≡◌};
ghost use Rattle.pooling.specs.Pool.{fresh_pool};

use outcomes::Refusal;
use ranges::Width;
use reception::Reception;

// A pool, which the host keeps beside the list that it lends: how many transfers are in use, and of each its record, its floor and its
// limit, both in ranges. Three arrays, and not one of transfers: specs/Pool names them (record_at, floor_at, limit_at, fresh_pool).
#[derive(Clone, Copy)]
pub struct Pool {
    pub used: usize,
    pub records: [Reception; 8],
    pub floors: [usize; 8],
    pub limits: [usize; 8],
}

impl Pool {
    // A fresh pool, of `used` transfers with these widths, floors and limits.
    pub fn fresh(used: usize, widths: [Width; 8], floors: [usize; 8], limits: [usize; 8]) -> Pool
        ensures { result ≡ fresh_pool used widths floors limits }
    {
        Pool {
            used,
            records: widths.map(Reception::fresh),
            floors,
            limits,
        }
    }
}

// What a caller has after an event: its answer, and the pool afterwards.
#[derive(Clone, Copy)]
pub struct PoolDone<A> {
    pub answer: Result<A, Refusal>,
    pub pool: Pool,
}
