// The answer to a sheet, as lines of hexadecimal digits.
#![tactic(auto)]

pub mod hex;
pub mod refusal;
pub mod write;
