// reset: the counter is zeroed and the countdown restarts, in every state; record and list are only read.
ghost use Rattle.std.specs.Prelude.{◌≡◌};
ghost use Rattle.deferring.specs.Reset.{reset_case, reset_outcome, reset_timer};

use crate::inner::{is_due, restart};
use deferring::{Deferred, Heard};
use reception::Reception;
use record_checks::inner::record_checks;

pub fn reset(timer: Deferred, rec: Reception, list: &[u64]) -> Heard<()>
    ensures { (reset_case result.answer ≡ reset_outcome rec list.now) × (result.timer ≡ reset_timer timer rec list.now) }
{
    let answer = record_checks(rec, list);
    let timer = if answer.is_ok() {
        restart(timer, is_due(rec))
    } else {
        timer
    };
    Heard { answer, timer }
}
