// The events of a pool's transfers, each as for one reception, with the pool's rule for room.
#![tactic(auto)]

pub mod data;
pub mod eof;
pub mod inner;
pub mod metadata;
