// The tests of a plan over all its PDUs, which lie back to back: each answers the first PDU at fault, or their number. For planner alone; no public call.
#![tactic(auto)]

pub mod inner;
