// What is asked of a pool's transfer: whether octets were kept, how many are missing, and its NAK sequence. Nothing but the buffer of the
// sequence is changed.
#![tactic(auto)]

pub mod held;
pub mod missing_octets;
pub mod sequence_of;
