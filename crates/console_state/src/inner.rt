// Inner: the console's own. Each function is proved safe and ending, and states what its callers need for that.
pub mod failure; // failure.rt: why a line has no answer of its own
pub mod marks; // marks.rt: the words for a width, an edition and the like
pub mod state; // state.rt: what the console holds from line to line
