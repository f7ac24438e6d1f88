// The EOF event.
ghost use Rattle.std.specs.Prelude.{◌≡◌};
ghost use Rattle.reception.specs.Eof.{eof_case, eof_outcome, eof_record, eof_list};

use event_checks::eof::eof_checks;
use event_lists::inner::finish;
use outcomes::Refusal;
use reception::{Done, Reception};

// The EOF event: the record is changed where it lies.
pub fn eof_event(rec: &mut Reception, list: &mut [u64], size: u64) -> Result<(), Refusal>
    ensures { (eof_case result ≡ eof_outcome rec.old list.old size)
        × ((rec.new ≡ eof_record rec.old list.old size)
        × (list.new ≡ eof_list rec.old list.old size)) }
{
    eof_checks(*rec, list, size)?;
    let left = finish(list, rec.count, rec.progress, rec.missing, size);
    rec.count = left.ok_or(Refusal::StoreFull)?;
    rec.progress = size;
    rec.sized = true;
    rec.size = size;
    Ok(())
}

// The same on a record by value.
pub fn eof_core(rec: Reception, list: &mut [u64], size: u64) -> Done<()>
    ensures { (eof_case result.answer ≡ eof_outcome rec list.old size)
        × ((result.rec ≡ eof_record rec list.old size)
        × (list.new ≡ eof_list rec list.old size)) }
{
    let mut next = rec;
    let answer = eof_event(&mut next, list, size);
    Done { answer, rec: next }
}
