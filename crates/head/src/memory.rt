// The memory that the heads keep their records and bests in.
ghost use Rattle.std.specs.Prelude.{◌≡◌};

use crate::best::Best;
use crate::record::Record;
use problem::place::PLACES;
use problem::price::Problem;
use scale::scale::Scale;

// how many records a head has, one for each search, and how many all heads have
pub const ROW: usize = 8;

pub const RECORDS: usize = 64;

// how many bests there are
pub const BESTS: usize = 8;

// The records and the bests of all heads, as a caller lends them: head h has the row of eight records that begins at 8 × (h − 1),
// one for each search, and the best at h − 1. What takes a `&mut` of it says in a clause that both stay in their places: no type says so.
#[derive(Drop)]
pub struct Memory<'a, S> {
    pub records: &'a mut [Record<S>],
    pub bests: &'a mut [Best<S>],
}

impl<'a, S: Scale> Memory<'a, S> {
    ghost use Rattle.head.specs.Lent.{are_enough};

    // Whether there are 64 records, 8 bests and, of the problem, 1,792 costs.
    pub fn is_enough(&self, problem: &Problem<S>) -> bool
        ensures { result ≡ are_enough self.now.records.now self.now.bests.now problem.now.costs.now }
    {
        self.records.len() >= RECORDS && self.bests.len() >= BESTS && problem.costs.len() >= PLACES
    }
}
