// The console's commands over a pool of transfers. For the console alone; no public call.
#![tactic(auto)]

pub mod inner;
