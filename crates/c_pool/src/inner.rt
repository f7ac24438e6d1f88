// Inner: the pool that C's numbers stand for, and C's pool with another record.
ghost use Rattle.std.specs.Prelude.{◌≡◌, ◌<◌};
ghost use Rattle.pooling.specs.Pool.{most_transfers};
ghost use Rattle.c_pool.specs.Input.{pool_in};
ghost use Rattle.c_pool.specs.Output.{with_record};

use crate::PusmarkePool;
use c_values::PusmarkeReception;
use pooling::Pool;
use reception::Reception;

impl From<PusmarkePool> for Pool {
    ghost from_gives = { λ c pool. pool ≡ pool_in c };

    fn from(pool: PusmarkePool) -> Pool {
        // One by one: of `map` it was not proved that each place holds what the function makes of it.
        let a = Reception::from(pool.records[0]);
        let b = Reception::from(pool.records[1]);
        let c = Reception::from(pool.records[2]);
        let d = Reception::from(pool.records[3]);
        let e = Reception::from(pool.records[4]);
        let f = Reception::from(pool.records[5]);
        let g = Reception::from(pool.records[6]);
        let h = Reception::from(pool.records[7]);
        Pool {
            used: pool.used,
            records: [a, b, c, d, e, f, g, h],
            floors: pool.floors,
            limits: pool.limits,
        }
    }
}

// C's pool with another record of transfer i.
pub fn with_record(pool: PusmarkePool, i: usize, rec: PusmarkeReception) -> PusmarkePool
    requires { i < most_transfers }
    ensures { result ≡ with_record pool i rec }
{
    let mut next = pool;
    next.records[i] = rec;
    next
}
