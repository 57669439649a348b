// Sheets: the lines in which a customer writes a job and its costs.
#![tactic(auto)]

pub mod breach;
pub mod frame;
pub mod hex;
pub mod line;
pub mod opening;
pub mod progress;
pub mod read;
pub mod table;
