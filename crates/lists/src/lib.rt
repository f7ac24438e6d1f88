// A lent flat list, read and changed in place: its pairs one by one, and a run of ranges replaced by others.
#![tactic(auto)]

pub mod inner;
