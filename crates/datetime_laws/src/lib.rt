// No code: what 02 Q-6 says of datetimes with unknown digits, proved of the definitions of datetime.
#![tactic(auto)]
