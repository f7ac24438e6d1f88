// The console's command over a plan. For the console alone; no public call.
#![tactic(auto)]

pub mod inner;
