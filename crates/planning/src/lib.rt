// A plan of NAK PDUs that mission planning proposes: its definitions and laws. The call is in the crate planner.
#![tactic(auto)]
