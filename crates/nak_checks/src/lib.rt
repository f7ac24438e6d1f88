// The checks of an identity and of a list of requests, and how long a PDU and its parts are.
#![tactic(auto)]

pub mod inner;
