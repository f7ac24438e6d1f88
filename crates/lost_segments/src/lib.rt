// The store of lost segments: the calls of the Rust's LostSegmentStore on a lent flat list of pairs. Those by which ranges enter and
// leave are in adding and removing.
#![tactic(auto)]

pub mod coalesce;
pub mod inner; // inner.rt: the checks that calls share
pub mod segment_in_store;
pub mod write_segments_to_bytes;

pub use adding::{add, insert};
pub use removing::remove;
