// Jobs, plans, sets of heads and of setups, and why a call declines.
#![tactic(auto)]

pub mod declined;
pub mod job;
pub mod plan;
pub mod refusal;
pub mod sets;
