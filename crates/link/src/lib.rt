// Messages, links that carry them in an order of their own, and pickers.
#![tactic(auto)]

pub mod first_in;
pub mod heads;
pub mod last_in;
pub mod link;
pub mod message;
pub mod picker;
mod queue;
pub mod row;
pub mod sending;
pub mod theorems;
