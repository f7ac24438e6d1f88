// Inner: the console's own. Each function is proved safe and ending, and states what its callers need for that.
pub mod map; // map.rt: map
pub mod receiving; // receiving.rt: data, metadata, eof
pub mod reports; // reports.rt: held, missing
pub mod store; // store.rt: the store's six calls
pub mod timing; // timing.rt: defer, tick, reset, timer
