// No code: queries with what is said of their text, computed from the definitions.
#![tactic(auto)]
