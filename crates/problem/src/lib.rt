// The problem: where costs lie, what plans cost, and the mathematics on which the search rests.
#![tactic(auto)]

pub mod place;
pub mod price;
pub mod theorems;
