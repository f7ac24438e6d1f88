// Inner: where a timer goes, and how activity is judged.
ghost use Rattle.std.specs.Prelude.{◌≡◌, ◌&&◌, ◌||◌, cond, ltb, is_ok};
ghost use Rattle.deferring.specs.Timer.{gone_active, gone_idle};
ghost use Rattle.deferring.specs.Hear.{judged};

use deferring::{Activity, Deferred, Heard};
use outcomes::Refusal;
use reception::Reception;

// Whether the size is known and anything is missing: a sound record that misses octets counts a range.
pub fn is_due(rec: Reception) -> bool
    ensures { result ≡ (rec.sized && (rec.missing || ltb 0 rec.count)) }
{
    rec.sized && (rec.missing || 0 < rec.count)
}

// Active if it is due, else idle; either way the counter is zeroed.
pub fn restart(timer: Deferred, due: bool) -> Deferred
    ensures { result ≡ cond due (gone_active timer) (gone_idle timer) }
{
    if due {
        timer.gone_active()
    } else {
        timer.gone_idle()
    }
}

// While active, an event with no news leaves countdown and counter as they are, if something is still missing.
fn judge(timer: Deferred, due: bool, news: bool) -> Deferred
    ensures { result ≡ judged due news timer }
{
    match timer.activity {
        Activity::Active if due && !news => timer,
        Activity::Deaf => timer,
        _ => restart(timer, due),
    }
}

// What an event does to the timer, by its answer and the record afterwards: a refused one leaves it.
pub fn hear<A>(timer: Deferred, answer: Result<A, Refusal>, rec: Reception, news: bool) -> Heard<A>
    ensures answer { result.answer ≡ answer }
    ensures timer { result.timer ≡ cond (is_ok answer) (judged (rec.sized && (rec.missing || ltb 0 rec.count)) news timer) timer }
{
    let after = if answer.is_ok() {
        judge(timer, is_due(rec), news)
    } else {
        timer
    };
    Heard {
        answer,
        timer: after,
    }
}
