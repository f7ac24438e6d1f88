// The shape of a packet: what its header says, and the checks up to the scope.
#![tactic(auto)]

pub mod inner;
