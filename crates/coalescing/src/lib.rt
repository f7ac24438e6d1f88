// Coalescing counted pairs: a sort where they lie, and one pass.
#![tactic(auto)]

pub mod inner;
