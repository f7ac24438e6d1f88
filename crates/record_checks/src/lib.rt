// The checks of a record, which every event and every report begins with: 10, 8, 12.
#![tactic(auto)]

pub mod inner;
