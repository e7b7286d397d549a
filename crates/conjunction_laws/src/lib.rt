// No code: what 02 Q-7 says of two queries made into one, proved of the definitions of conjunction.
#![tactic(auto)]
