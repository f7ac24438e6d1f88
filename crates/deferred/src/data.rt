// The data event with its timer.
ghost use Rattle.std.specs.Prelude.{◌≡◌, true};
ghost use Rattle.reception.specs.Data.{data_case, data_outcome, data_record, data_list};
ghost use Rattle.reception.specs.History.{Data, is_accepted};
ghost use Rattle.deferring.specs.Hear.{state_of, is_lowered, heard};

use crate::inner::hear;
use deferring::{Activity, Deferred, Heard, HeardDone};
use event_cores::data::data_event;
use reception::Reception;
use reception::data::Received;
use report::held::held;

// Whether the data would lower the missing octets, were it accepted with the size known: the metadata is known, and not all of the
// data is held. No octet is counted.
fn would_lower(rec: Reception, list: &[u64], offset: u64, length: u64) -> bool
    ensures { is_accepted (state_of rec list.now) (Data offset length) ≡ true → rec.sized ≡ true
        → result ≡ is_lowered (state_of rec list.now) (Data offset length) }
{
    if rec.missing {
        return false;
    }
    let Some(end) = offset.checked_add(length) else {
        return false;
    };
    held(rec, list, offset, end).is_ok_and(|kept| !kept)
}

// The event on a record where it lies. News matters only while the timer is active.
pub fn deferred_data(
    timer: Deferred,
    rec: &mut Reception,
    list: &mut [u64],
    offset: u64,
    length: u64,
) -> Heard<Received>
    ensures { (data_case result.answer ≡ data_outcome rec.old list.old offset length)
        × ((rec.new ≡ data_record rec.old list.old offset length)
        × ((list.new ≡ data_list rec.old list.old offset length)
        × (result.timer ≡ heard timer (state_of rec.old list.old) (Data offset length)))) }
{
    let news = timer.activity == Activity::Active && would_lower(*rec, list, offset, length);
    let answer = data_event(rec, list, offset, length);
    hear(timer, answer, *rec, news)
}

// The same on a record by value.
pub fn deferred_data_core(
    timer: Deferred,
    rec: Reception,
    list: &mut [u64],
    offset: u64,
    length: u64,
) -> HeardDone<Received>
    ensures { (data_case result.heard.answer ≡ data_outcome rec list.old offset length)
        × ((result.rec ≡ data_record rec list.old offset length)
        × ((list.new ≡ data_list rec list.old offset length)
        × (result.heard.timer ≡ heard timer (state_of rec list.old) (Data offset length)))) }
{
    let mut next = rec;
    let heard = deferred_data(timer, &mut next, list, offset, length);
    HeardDone { heard, rec: next }
}
