// The checks of the metadata event.
ghost use Rattle.std.specs.Prelude.{◌≡◌, []};
ghost use Rattle.outcomes.specs.Outcome.{accepted};
ghost use Rattle.outcomes.specs.Checks.{verdict_case, first_of};
ghost use Rattle.reception.specs.Metadata.{metadata_checks};

use outcomes::Refusal;
use reception::Reception;
use record_checks::inner::record_checks;

pub fn metadata_checks(rec: Reception, list: &[u64]) -> Result<(), Refusal>
    ensures { verdict_case result ≡ first_of (metadata_checks rec list.now) (accepted []) }
{
    record_checks(rec, list)?;
    if !rec.missing {
        return Err(Refusal::AlreadyKnown);
    }
    Ok(())
}
