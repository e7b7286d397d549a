// No code: 01's worked examples, computed from the definitions.
#![tactic(auto)]
