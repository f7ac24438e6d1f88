// How the transfers of a pool share its list: the checks 23 and 10.
#![tactic(auto)]

pub mod inner;
