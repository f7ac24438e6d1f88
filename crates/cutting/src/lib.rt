// Offsets that leave a coalesced list where it lies.
#![tactic(auto)]

pub mod inner;
