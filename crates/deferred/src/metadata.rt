// The metadata event with its timer.
ghost use Rattle.std.specs.Prelude.{◌≡◌};
ghost use Rattle.reception.specs.Metadata.{metadata_case, metadata_outcome, metadata_record};
ghost use Rattle.reception.specs.History.{Metadata};
ghost use Rattle.deferring.specs.Hear.{state_of, heard};

use crate::inner::hear;
use deferring::{Deferred, Heard, HeardDone};
use event_cores::metadata::metadata_event;
use reception::Reception;

// The event on a record where it lies; the list is only read. It restarts the countdown.
pub fn deferred_metadata(timer: Deferred, rec: &mut Reception, list: &[u64]) -> Heard<()>
    ensures { (metadata_case result.answer ≡ metadata_outcome rec.old list.now)
        × ((rec.new ≡ metadata_record rec.old list.now)
        × (result.timer ≡ heard timer (state_of rec.old list.now) Metadata)) }
{
    let answer = metadata_event(rec, list);
    hear(timer, answer, *rec, true)
}

// The same on a record by value.
pub fn deferred_metadata_core(timer: Deferred, rec: Reception, list: &[u64]) -> HeardDone<()>
    ensures { (metadata_case result.heard.answer ≡ metadata_outcome rec list.now)
        × ((result.rec ≡ metadata_record rec list.now)
        × (result.heard.timer ≡ heard timer (state_of rec list.now) Metadata)) }
{
    let mut next = rec;
    let heard = deferred_metadata(timer, &mut next, list);
    HeardDone { heard, rec: next }
}
