// make, tick and reset on C's timer.
ghost use Rattle.std.specs.Prelude.{◌≡◌};
ghost use Rattle.deferring.specs.Make.{made};
ghost use Rattle.deferring.specs.Tick.{ticked};
ghost use Rattle.deferring.specs.Reset.{reset_outcome, reset_timer};
ghost use Rattle.c_values.specs.Input.{record_in};
ghost use Rattle.c_deferred.specs.Timer.{timer_in, timer_out};
ghost use Rattle.c_deferred.specs.Heard.{heard_out, made_out, tick_number, tick_out};

use crate::{PusmarkeDeferred, PusmarkeHeard};
use answers::PusmarkeAnswer;
use c_values::PusmarkeReception;
use deferred::make::make;
use deferred::reset::reset;
use deferred::tick::tick;
use deferring::Deferred;
use deferring::tick::TickAnswer;
use reception::Reception;

// Where none was made.
const NO_TIMER: PusmarkeDeferred = PusmarkeDeferred {
    period: 0,
    limit: 0,
    activity: 0,
    left: 0,
    counter: 0,
};

pub fn make_out(d: u64, limit: u64) -> PusmarkeHeard
    ensures { result ≡ made_out (made d limit) }
{
    match make(d, limit) {
        Ok(timer) => PusmarkeHeard {
            answer: PusmarkeAnswer::accepted(0, 0, 0),
            timer: PusmarkeDeferred::from(timer),
        },
        Err(r) => PusmarkeHeard {
            answer: PusmarkeAnswer::from(r),
            timer: NO_TIMER,
        },
    }
}

fn tick_number(answer: TickAnswer) -> u64
    ensures { result ≡ tick_number answer }
{
    match answer {
        TickAnswer::Quiet => 0,
        TickAnswer::Ask => 1,
        TickAnswer::Limit => 2,
    }
}

pub fn tick_out(timer: PusmarkeDeferred) -> PusmarkeHeard
    ensures { result ≡ tick_out (ticked (timer_in timer)) }
{
    let done = tick(Deferred::from(timer));
    PusmarkeHeard {
        answer: PusmarkeAnswer::accepted(tick_number(done.answer), 0, 0),
        timer: PusmarkeDeferred::from(done.timer),
    }
}

// Record and list are only read.
pub fn reset_out(timer: PusmarkeDeferred, rec: PusmarkeReception, list: &[u64]) -> PusmarkeHeard
    ensures { result ≡ heard_out (reset_outcome (record_in rec) list.now) (timer_out (reset_timer (timer_in timer) (record_in rec) list.now)) }
{
    let done = reset(Deferred::from(timer), Reception::from(rec), list);
    PusmarkeHeard::from(done)
}
