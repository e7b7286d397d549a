// What the program writes: a line for each instance of a run and one with the totals, or the one line of a refused call. All of it goes into a buffer that the caller
// lends; a buffer that is too short gets what fits.
#![tactic(auto)]

pub mod line;
pub mod output;
