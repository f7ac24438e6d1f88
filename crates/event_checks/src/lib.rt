// The checks of the reception events, up to that of the room.
#![tactic(auto)]

pub mod data;
pub mod eof;
pub mod metadata;
