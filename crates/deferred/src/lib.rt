// The deferred NAK procedure (C-22): the calls on a timer. Inputs are events, ticks and resets; no clock is read.
#![tactic(auto)]

pub mod data;
pub mod eof;
pub mod inner;
pub mod make;
pub mod metadata;
pub mod reset;
pub mod tick;
