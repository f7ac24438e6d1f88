// What a reception holds and what it misses: its definitions and laws. The calls are in the crate report.
#![tactic(auto)]
