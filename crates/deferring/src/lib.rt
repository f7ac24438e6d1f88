// The deferred NAK procedure (C-22): its timer, and what its calls answer. The calls are in the crate deferred.
#![tactic(auto)]

ghost use Rattle.std.specs.Prelude.{◌≡◌};
ghost use Rattle.deferring.specs.Timer as timers;

use outcomes::Refusal;
use reception::Reception;

pub mod tick;

#[derive(Clone, Copy, Debug, PartialEq, Eq)]
pub enum Activity {
    Idle,
    Active,
    Deaf,
}

// The timer of one reception, which the host keeps beside the record. It moves by value.
#[derive(Clone, Copy)]
pub struct Deferred {
    // The ticks of a countdown, and the asks after which the next expiry is the last.
    pub period: u64,
    pub limit: u64,
    pub activity: Activity,
    // The ticks that are left of the countdown, and the asks since the last restart by an event or a reset.
    pub left: u64,
    pub counter: u64,
}

impl Deferred {
    // Going active: the counter is 0, and the countdown starts with its ticks.
    pub fn gone_active(self) -> Deferred
        ensures { result ≡ timers.gone_active self }
    {
        Deferred {
            activity: Activity::Active,
            left: self.period,
            counter: 0,
            ..self
        }
    }

    // Going idle: the counter is 0, and nothing is left of the countdown.
    pub fn gone_idle(self) -> Deferred
        ensures { result ≡ timers.gone_idle self }
    {
        Deferred {
            activity: Activity::Idle,
            left: 0,
            counter: 0,
            ..self
        }
    }

    // Going deaf: nothing is left of the countdown; the counter stays where it is.
    pub fn gone_deaf(self) -> Deferred
        ensures { result ≡ timers.gone_deaf self }
    {
        Deferred {
            activity: Activity::Deaf,
            left: 0,
            ..self
        }
    }
}

// What a caller has after an event or a reset: its answer, and the timer afterwards.
#[derive(Clone, Copy)]
pub struct Heard<A> {
    pub answer: Result<A, Refusal>,
    pub timer: Deferred,
}

// By value, the record too.
#[derive(Clone, Copy)]
pub struct HeardDone<A> {
    pub heard: Heard<A>,
    pub rec: Reception,
}
