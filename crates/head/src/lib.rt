// What one head does with one message.
#![tactic(auto)]

pub mod best;
pub mod laws;
pub mod memory;
pub mod owed;
pub mod receive;
pub mod record;
pub mod respond;
pub mod search;
pub mod seat;
pub mod sending;
pub mod setups;
pub mod stray;
