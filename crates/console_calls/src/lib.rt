// The console's commands over the calls. For the console alone; no public call.
#![tactic(auto)]

pub mod inner;
