// The reception events: on a record where it lies, and on one by value.
#![tactic(auto)]

pub mod data;
pub mod eof;
pub mod metadata;
