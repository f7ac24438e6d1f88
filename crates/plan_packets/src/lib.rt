// One PDU of a plan: the tests of its octets, and its requests gathered in a lent list. For planner alone; no public call.
#![tactic(auto)]

pub mod inner;
