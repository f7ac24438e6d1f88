// Inner: the console's own. Each function is proved safe and ending, and states what its callers need for that.
pub mod kept; // kept.rt: the transfers that the console keeps
pub mod transfers; // transfers.rt: pool, and the commands for one transfer
