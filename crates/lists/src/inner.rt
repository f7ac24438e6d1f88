// Inner: what the store's calls and the reception events share. A function here asks for what its callers have checked, so
// none is a public call.
pub mod moves; // moves.rt: a run of ranges replaced by at most two
pub mod pairs; // pairs.rt: the pairs of a lent list, one by one
