// What the console holds from line to line. For the console alone; no public call.
#![tactic(auto)]

pub mod inner;
