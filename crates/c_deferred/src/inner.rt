// Inner: a timer from C's numbers, and back.
ghost use Rattle.std.specs.Prelude.{◌≡◌};
ghost use Rattle.c_deferred.specs.Timer.{activity_in, activity_out, timer_in, timer_out};

use crate::PusmarkeDeferred;
use deferring::{Activity, Deferred};

pub fn activity_in(activity: u64) -> Activity
    ensures { result ≡ activity_in activity }
{
    match activity {
        0 => Activity::Idle,
        1 => Activity::Active,
        _ => Activity::Deaf,
    }
}

pub fn activity_out(activity: Activity) -> u64
    ensures { result ≡ activity_out activity }
{
    match activity {
        Activity::Idle => 0,
        Activity::Active => 1,
        Activity::Deaf => 2,
    }
}

impl From<PusmarkeDeferred> for Deferred {
    ghost from_gives = { λ c timer. timer ≡ timer_in c };

    fn from(timer: PusmarkeDeferred) -> Deferred {
        Deferred {
            period: timer.period,
            limit: timer.limit,
            activity: activity_in(timer.activity),
            left: timer.left,
            counter: timer.counter,
        }
    }
}

impl From<Deferred> for PusmarkeDeferred {
    ghost from_gives = { λ timer c. c ≡ timer_out timer };

    fn from(own: Deferred) -> PusmarkeDeferred {
        PusmarkeDeferred {
            period: own.period,
            limit: own.limit,
            activity: activity_out(own.activity),
            left: own.left,
            counter: own.counter,
        }
    }
}
