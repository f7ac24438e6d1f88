// missing_octets of a pool's transfer.
ghost use Rattle.std.specs.Prelude.{◌≡◌};
ghost use Rattle.holding.specs.MissingOctets.{missing_octets_case};
ghost use Rattle.pool_report.specs.Report.{pool_missing_outcome};

use outcomes::Refusal;
use pooling::Pool;
use report::missing_octets::missing_octets;
use sharing::inner::own::own;

// How many octets transfer i misses. The list is read once.
pub fn pool_missing_octets(pool: Pool, list: &[u64], i: usize) -> Result<u64, Refusal>
    ensures { missing_octets_case result ≡ pool_missing_outcome pool list.now i }
{
    let (rec, part) = own(pool, list, i)?;
    missing_octets(rec, part)
}
