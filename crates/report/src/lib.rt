// What a report asks a reception: whether octets were kept, and how many are missing.
#![tactic(auto)]

pub mod held;
pub mod inner;
pub mod missing_octets;
