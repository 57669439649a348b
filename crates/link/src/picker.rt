// Who chooses the head that a plan goes to.
ghost use Rattle.link.specs.HeadSets.{Picks, PicksLowest, PicksHighest};

use crate::heads::HeadSet;

pub trait Picker {
    // A member of the set, or 0 for the empty set: a head is a byte everywhere, and 0 is no head. Which member is free.
    fn pick(&mut self, set: HeadSet) -> u8
        ensures { Picks set result };
}

// Picks the member with the lowest number.
#[derive(Clone, Copy)]
pub struct Lowest {}

// Picks the member with the highest number.
#[derive(Clone, Copy)]
pub struct Highest {}

impl Picker for Lowest {
    #[tactic(auto, using(crate::proofs::HeadSets::lowest_is_picked, crate::proofs::HeadSets::none_lower))]
    fn pick(&mut self, set: HeadSet) -> u8
        ensures member { Picks set result }
        ensures lowest { PicksLowest set result }
    {
        set.lowest().unwrap_or(0)
    }
}

impl Picker for Highest {
    #[tactic(auto, using(crate::proofs::HeadSets::highest_is_picked, crate::proofs::HeadSets::none_higher))]
    fn pick(&mut self, set: HeadSet) -> u8
        ensures member { Picks set result }
        ensures highest { PicksHighest set result }
    {
        set.highest().unwrap_or(0)
    }
}
