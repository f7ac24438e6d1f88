// Octets 0 and 3 of a PDU: the fixed bits, and what the others say.
#![tactic(auto)]

pub mod inner;
