// Reception events: what a receiver does with file data and metadata as they come. The record is changed where it lies.
#![tactic(auto)]

pub use event_cores::{data, eof, metadata};
