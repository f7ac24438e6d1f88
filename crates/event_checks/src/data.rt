// The checks of the data event.
ghost use Rattle.std.specs.Prelude.{◌≡◌, []};
ghost use Rattle.outcomes.specs.Outcome.{accepted};
ghost use Rattle.outcomes.specs.Checks.{verdict_case, first_of};
ghost use Rattle.reception.specs.Data.{data_checks};

use outcomes::Refusal;
use reception::Reception;
use record_checks::inner::record_checks;

// The checks before that of the room.
pub fn data_checks(rec: Reception, list: &[u64], offset: u64, length: u64) -> Result<(), Refusal>
    ensures { verdict_case result ≡ first_of (data_checks rec list.now offset length) (accepted []) }
{
    record_checks(rec, list)?;
    if length == 0 {
        return Err(Refusal::EmptySegment);
    }
    let end = offset.checked_add(length).ok_or(Refusal::RangeTooLong)?;
    if rec.width.limit() < end {
        return Err(Refusal::LargeFileSegmentNotSupported);
    }
    if rec.sized && rec.size < end {
        return Err(Refusal::FileSizeError);
    }
    Ok(())
}
