// What a tick answers.
use crate::Deferred;

#[derive(Clone, Copy, Debug, PartialEq, Eq)]
pub enum TickAnswer {
    // Nothing is to be done.
    Quiet,
    // One full sequence is to be sent.
    Ask,
    // The limit is reached: reported once.
    Limit,
}

// What a caller has after a tick: the answer, and the timer afterwards.
#[derive(Clone, Copy)]
pub struct TickDone {
    pub answer: TickAnswer,
    pub timer: Deferred,
}
