// Why the program fails, for a person.
use job::refusal::Refusal;
use std::alloc::AllocError;
use std::io;
use thiserror::Error;

#[derive(Debug, Drop, Error)]
pub enum Failure {
    // the plan's costs are not to be had
    #[error("The costs of the plan are refused by rule {}.", .0.number())]
    Costs(#[from] Refusal),
    #[error("out of memory")]
    Memory(#[from(alloc)] AllocError),
    // the input or the output failed
    #[error(transparent)]
    System(#[from] io::Error),
}
