// A transfer that closes: theorems over receptions and their sequences. There is no function here.
#![tactic(auto)]
