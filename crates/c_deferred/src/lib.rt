// The deferred NAK procedure for C: its timer in numbers, and the calls on C's record by value.
#![tactic(auto)]

ghost use Rattle.std.specs.Prelude.{◌≡◌};
ghost use Rattle.outcomes.specs.Answered.{answered};
ghost use Rattle.c_deferred.specs.Timer.{timer_out};
ghost use Rattle.c_deferred.specs.Heard.{heard_out};

use answers::PusmarkeAnswer;
use answers::numbers::Numbers;
use c_values::PusmarkeReception;
use deferring::Heard;

pub mod inner; // inner.rt: a timer from C's numbers, and back
pub mod timer; // timer.rt: make, tick and reset
pub mod whole; // whole.rt: the three events

// A timer. `activity` is 0 where it is idle, 1 where it is active, and any other number where it is deaf.
#[repr(C)]
#[derive(Clone, Copy)]
pub struct PusmarkeDeferred {
    pub period: u64,
    pub limit: u64,
    pub activity: u64,
    pub left: u64,
    pub counter: u64,
}

// What every call of the procedure hands back: its answer, and the timer afterwards.
#[repr(C)]
#[derive(Clone, Copy)]
pub struct PusmarkeHeard {
    pub answer: PusmarkeAnswer,
    pub timer: PusmarkeDeferred,
}

impl<A: Numbers> From<Heard<A>> for PusmarkeHeard {
    ghost from_gives = { λ h c. c ≡ heard_out (answered A.numbers h.answer) (timer_out h.timer) };

    fn from(heard: Heard<A>) -> PusmarkeHeard {
        PusmarkeHeard {
            answer: PusmarkeAnswer::from(heard.answer),
            timer: PusmarkeDeferred::from(heard.timer),
        }
    }
}

// What an event leaves: that, and C's record.
#[derive(Clone, Copy)]
pub struct HeardOut {
    pub heard: PusmarkeHeard,
    pub rec: PusmarkeReception,
}
