// One transfer's ranges changed in the pool's list, with those behind them moved.
#![tactic(auto)]

pub mod inner;
