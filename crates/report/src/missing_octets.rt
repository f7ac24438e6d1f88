// missing_octets: how many octets the list has.
ghost use Rattle.std.specs.Prelude.{◌≡◌};
ghost use Rattle.holding.specs.MissingOctets.{missing_octets_case, missing_octets_outcome};

use crate::inner::octets_in;
use outcomes::Refusal;
use reception::Reception;
use record_checks::inner::record_checks;

pub fn missing_octets(rec: Reception, list: &[u64]) -> Result<u64, Refusal>
    ensures { missing_octets_case result ≡ missing_octets_outcome rec list.now }
{
    record_checks(rec, list)?;
    Ok(octets_in(list, rec.count, rec.progress))
}
