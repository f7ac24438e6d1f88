// The store's call by which offsets leave: remove.
#![tactic(auto)]

pub mod remove;
