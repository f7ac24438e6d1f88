// The console's text: words and numbers of a line, and what is printed. For the console alone; no public call.
#![tactic(auto)]

pub mod inner;
