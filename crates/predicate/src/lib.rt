// A comparison whose parts have been read, with its truth, steps and reads by its form; no code of its own: that of each form stands in `place`, `arrays`, `search`, `like`.
#![tactic(auto)]
