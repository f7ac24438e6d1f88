// tick: one tick a call; the timer is handed back.
ghost use Rattle.std.specs.Prelude.{◌≡◌};
ghost use Rattle.deferring.specs.Tick.{expired, counted_down, ticked};

use deferring::tick::{TickAnswer, TickDone};
use deferring::{Activity, Deferred};

// The countdown is at zero.
fn expire(timer: Deferred) -> TickDone
    ensures { result ≡ expired timer }
{
    if timer.limit <= timer.counter {
        return TickDone {
            answer: TickAnswer::Limit,
            timer: timer.gone_deaf(),
        };
    }
    TickDone {
        answer: TickAnswer::Ask,
        timer: Deferred {
            activity: Activity::Active,
            left: timer.period,
            counter: timer.counter + 1,
            ..timer
        },
    }
}

// A tick while active.
fn count_down(timer: Deferred) -> TickDone
    ensures { result ≡ counted_down timer }
{
    if timer.left <= 1 {
        return expire(timer);
    }
    TickDone {
        answer: TickAnswer::Quiet,
        timer: Deferred {
            activity: Activity::Active,
            left: timer.left - 1,
            ..timer
        },
    }
}

pub fn tick(timer: Deferred) -> TickDone
    ensures { result ≡ ticked timer }
{
    match timer.activity {
        Activity::Active => count_down(timer),
        Activity::Idle | Activity::Deaf => TickDone {
            answer: TickAnswer::Quiet,
            timer,
        },
    }
}
