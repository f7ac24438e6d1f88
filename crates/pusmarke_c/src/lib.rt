// The C boundary: every public call as an exported function of numbers, slices and structs of numbers. No export asks for anything.
#![tactic(auto)]

pub mod deferred_nak; // deferred_nak.rt: the deferred NAK procedure
pub mod events; // events.rt: a fresh record, the three events
pub mod held; // held.rt: what is held and what is missing
pub mod pdu; // pdu.rt: one NAK PDU written and read
pub mod pdus; // pdus.rt: the NAK sequence
pub mod plan; // plan.rt: the check of a plan of NAK PDUs
pub mod pools; // pools.rt: several transfers, one list
pub mod store; // store.rt: the store's six calls
