// The store's calls by which a range enters: add and insert.
#![tactic(auto)]

pub mod add;
pub mod insert;
