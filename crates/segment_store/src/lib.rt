// The store of lost segments: what a store is and what remove takes out. The calls are in the crate lost_segments.
#![tactic(auto)]

use ranges::Width;

pub mod remove;

// What a store holds besides the list that it is lent: how many pairs are counted, and its width.
#[derive(Clone, Copy)]
pub struct Store {
    pub count: usize,
    pub width: Width,
}
