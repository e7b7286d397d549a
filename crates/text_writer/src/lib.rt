// Text written into a buffer that the caller lends: bytes, and numbers in decimal digits. A buffer that is too short gets what fits.
#![tactic(auto)]

pub mod buffer;
pub mod decimal;
