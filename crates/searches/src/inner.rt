// Inner: what the store's calls, the reception events and the NAK share. A function here asks for what its callers have checked, so
// none is a public call.
pub mod checks; // checks.rt: tests that read the counted pairs
pub mod halving; // halving.rt: places in a coalesced list, found by halving
