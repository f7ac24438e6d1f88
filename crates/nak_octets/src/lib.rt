// The parts of a PDU, put into a buffer: header, identity, data field.
#![tactic(auto)]

pub mod inner;
