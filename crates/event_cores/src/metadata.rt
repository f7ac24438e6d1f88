// The metadata event.
ghost use Rattle.std.specs.Prelude.{◌≡◌};
ghost use Rattle.reception.specs.Metadata.{metadata_case, metadata_outcome, metadata_record};

use event_checks::metadata::metadata_checks;
use outcomes::Refusal;
use reception::{Done, Reception};

// The metadata event: the record is changed where it lies; the list is only read.
pub fn metadata_event(rec: &mut Reception, list: &[u64]) -> Result<(), Refusal>
    ensures { (metadata_case result ≡ metadata_outcome rec.old list.now)
        × (rec.new ≡ metadata_record rec.old list.now) }
{
    metadata_checks(*rec, list)?;
    rec.missing = false;
    Ok(())
}

// The same on a record by value.
pub fn metadata_core(rec: Reception, list: &[u64]) -> Done<()>
    ensures { (metadata_case result.answer ≡ metadata_outcome rec list.now)
        × (result.rec ≡ metadata_record rec list.now) }
{
    let mut next = rec;
    let answer = metadata_event(&mut next, list);
    Done { answer, rec: next }
}
