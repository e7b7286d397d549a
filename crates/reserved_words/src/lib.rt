// No code: a query's tokens and the rule of names have the same reserved words.
#![tactic(auto)]
