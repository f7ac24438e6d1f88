// The checks of the EOF event.
ghost use Rattle.std.specs.Prelude.{◌≡◌, []};
ghost use Rattle.outcomes.specs.Outcome.{accepted};
ghost use Rattle.outcomes.specs.Checks.{verdict_case, first_of};
ghost use Rattle.reception.specs.Eof.{eof_checks};

use outcomes::Refusal;
use reception::Reception;
use record_checks::inner::record_checks;

// The checks before that of the room.
pub fn eof_checks(rec: Reception, list: &[u64], size: u64) -> Result<(), Refusal>
    ensures { verdict_case result ≡ first_of (eof_checks rec list.now size) (accepted []) }
{
    record_checks(rec, list)?;
    if rec.width.limit() < size {
        return Err(Refusal::LargeFileSegmentNotSupported);
    }
    if size < rec.progress || (rec.sized && size != rec.size) {
        return Err(Refusal::FileSizeError);
    }
    Ok(())
}
