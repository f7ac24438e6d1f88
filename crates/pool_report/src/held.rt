// held of a pool's transfer.
ghost use Rattle.std.specs.Prelude.{◌≡◌};
ghost use Rattle.holding.specs.Held.{held_case};
ghost use Rattle.pool_report.specs.Report.{pool_held_outcome};

use outcomes::Refusal;
use pooling::Pool;
use report::held::held;
use sharing::inner::own::own;

// Whether every octet of (a, b) was kept for transfer i. The list is read once.
pub fn pool_held(pool: Pool, list: &[u64], i: usize, a: u64, b: u64) -> Result<bool, Refusal>
    ensures { held_case result ≡ pool_held_outcome pool list.now i a b }
{
    let (rec, part) = own(pool, list, i)?;
    held(rec, part, a, b)
}
