// Searches that share one bag of messages, as mathematics: what every moment of a run has in common, and what follows from it.
#![tactic(auto)]

pub mod runs;
pub mod theorems;
