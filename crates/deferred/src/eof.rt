// The EOF event with its timer.
ghost use Rattle.std.specs.Prelude.{◌≡◌};
ghost use Rattle.reception.specs.Eof.{eof_case, eof_outcome, eof_record, eof_list};
ghost use Rattle.reception.specs.History.{Eof};
ghost use Rattle.deferring.specs.Hear.{state_of, heard};

use crate::inner::hear;
use deferring::{Deferred, Heard, HeardDone};
use event_cores::eof::eof_event;
use reception::Reception;

// The event on a record where it lies. An end of file never lowers the missing octets.
pub fn deferred_eof(timer: Deferred, rec: &mut Reception, list: &mut [u64], size: u64) -> Heard<()>
    ensures { (eof_case result.answer ≡ eof_outcome rec.old list.old size)
        × ((rec.new ≡ eof_record rec.old list.old size)
        × ((list.new ≡ eof_list rec.old list.old size)
        × (result.timer ≡ heard timer (state_of rec.old list.old) (Eof size)))) }
{
    let answer = eof_event(rec, list, size);
    hear(timer, answer, *rec, false)
}

// The same on a record by value.
pub fn deferred_eof_core(
    timer: Deferred,
    rec: Reception,
    list: &mut [u64],
    size: u64,
) -> HeardDone<()>
    ensures { (eof_case result.heard.answer ≡ eof_outcome rec list.old size)
        × ((result.rec ≡ eof_record rec list.old size)
        × ((list.new ≡ eof_list rec list.old size)
        × (result.heard.timer ≡ heard timer (state_of rec list.old) (Eof size)))) }
{
    let mut next = rec;
    let heard = deferred_eof(timer, &mut next, list, size);
    HeardDone { heard, rec: next }
}
