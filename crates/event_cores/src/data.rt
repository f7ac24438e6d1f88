// The data event.
ghost use Rattle.std.specs.Prelude.{◌≡◌};
ghost use Rattle.reception.specs.Data.{data_case, data_outcome, data_record, data_list};

use event_checks::data::data_checks;
use event_lists::inner::change;
use outcomes::Refusal;
use reception::data::Received;
use reception::{Done, Reception};

// The data event: the record is changed where it lies.
pub fn data_event(
    rec: &mut Reception,
    list: &mut [u64],
    offset: u64,
    length: u64,
) -> Result<Received, Refusal>
    ensures { (data_case result ≡ data_outcome rec.old list.old offset length)
        × ((rec.new ≡ data_record rec.old list.old offset length)
        × (list.new ≡ data_list rec.old list.old offset length)) }
{
    data_checks(*rec, list, offset, length)?;
    let end = offset + length;
    let left = change(list, rec.count, rec.progress, rec.missing, offset, end);
    rec.count = left.ok_or(Refusal::StoreFull)?;
    rec.progress = rec.progress.max(end);
    Ok(if rec.missing {
        Received::Noticed
    } else {
        Received::Kept
    })
}

// The same on a record by value.
pub fn data_core(rec: Reception, list: &mut [u64], offset: u64, length: u64) -> Done<Received>
    ensures { (data_case result.answer ≡ data_outcome rec list.old offset length)
        × ((result.rec ≡ data_record rec list.old offset length)
        × (list.new ≡ data_list rec list.old offset length)) }
{
    let mut next = rec;
    let answer = data_event(&mut next, list, offset, length);
    Done { answer, rec: next }
}
