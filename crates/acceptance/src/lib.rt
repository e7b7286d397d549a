// No code: which queries the check accepts, and that what it and Meaning read again from the text is what the grammar read there.
#![tactic(auto)]
