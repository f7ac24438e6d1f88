// Reception events with the timer of the deferred NAK procedure (C-22): the record is changed where it lies, the timer moves by value.
#![tactic(auto)]

pub use deferred::{data, eof, metadata};
