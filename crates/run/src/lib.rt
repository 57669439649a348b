// Whole runs: start, deliver, look, end, and solve.
#![tactic(auto)]

pub mod run;
