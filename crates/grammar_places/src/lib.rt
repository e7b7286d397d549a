// Where 11 and 12 are placed in a query's text, and the theorems that no other token could have them; no code of its own.
#![tactic(auto)]
