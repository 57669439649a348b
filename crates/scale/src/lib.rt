// Scales of cost: what the setups of two heads cost each other, how costs are joined and compared, and how they stand in sheets.
#![tactic(auto)]

mod bytes;
pub mod clashes;
pub mod edges;
pub mod minutes;
pub mod scale;
mod words;
