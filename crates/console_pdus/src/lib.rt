// The console's commands over NAK PDUs. For the console alone; no public call.
#![tactic(auto)]

pub mod inner;
