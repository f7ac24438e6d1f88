// Inner: where a transfer's ranges lie, the changes of them, and the moves that those make. Each function asks for what its callers have
// checked.
pub mod changes;
pub mod place;
