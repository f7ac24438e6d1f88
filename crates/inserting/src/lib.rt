// A range put into a coalesced list where it lies.
#![tactic(auto)]

pub mod inner;
