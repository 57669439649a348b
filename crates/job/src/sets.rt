// Sets of eight numbers.
ghost use Rattle.std.specs.Prelude.{◌≡◌};
ghost use Rattle.job.specs.Sets.{none_of, place_of, has as has_number, put as put_number, with as with_number, without as without_number, below as numbers_below, only as only_number, lowest as lowest_of, highest as highest_of};

use std::array::from_fn;

// A set of some of the eight numbers from FIRST on: the number n is in it where `members[n - FIRST]` is set. Every other number is
// in no set.
#[derive(Clone, Copy)]
pub struct Set<const FIRST: u8> {
    pub members: [bool; 8],
}

impl<const FIRST: u8> Set<FIRST> {
    // Where a number's place is, if it has one.
    #[tactic(auto, using(crate::proofs::Members::no_place_below, crate::proofs::Members::place_from))]
    fn place(number: u8) -> Option<usize>
        ensures { result ≡ place_of FIRST number }
    {
        let place = number.checked_sub(FIRST)? as usize;
        (place < 8).then_some(place)
    }

    pub fn empty() -> Set<FIRST>
        ensures { result ≡ none_of FIRST }
    {
        Set {
            members: [false; 8],
        }
    }

    // The numbers below a number.
    pub fn below(end: u8) -> Set<FIRST>
        ensures { result ≡ numbers_below FIRST end }
    {
        let count = end.saturating_sub(FIRST) as usize;
        Set {
            members: from_fn(|place| place < count),
        }
    }

    // The set of one number; the empty one for a number that has no place.
    pub fn only(number: u8) -> Set<FIRST>
        ensures { result ≡ only_number FIRST number }
    {
        Set::empty().with(number)
    }

    #[tactic(auto, using(crate::proofs::Members::at_place, crate::proofs::Members::not_among))]
    pub fn has(&self, number: u8) -> bool
        ensures { result ≡ has_number FIRST self.now number }
    {
        // `is_some_and` would be longer: what its closure reads is known only from a clause on the closure.
        match Self::place(number) {
            Some(place) => self.members[place],
            None => false,
        }
    }

    // The set with a number in it or not; a number that has no place changes nothing.
    #[tactic(auto, using(crate::proofs::Members::at_place, crate::proofs::Members::setting_none))]
    fn put(self, number: u8, member: bool) -> Set<FIRST>
        ensures { result ≡ put_number FIRST self.entry number member }
    {
        let mut members = self.members;
        if let Some(place) = Self::place(number) {
            members[place] = member;
        }
        Set { members }
    }

    // The set with one more number; a number that has no place changes nothing.
    pub fn with(self, number: u8) -> Set<FIRST>
        ensures { result ≡ with_number FIRST self.entry number }
    {
        self.put(number, true)
    }

    pub fn without(self, number: u8) -> Set<FIRST>
        ensures { result ≡ without_number FIRST self.entry number }
    {
        self.put(number, false)
    }

    // The member with the lowest number. What the closures here and below answer is known only from their clauses.
    pub fn lowest(&self) -> Option<u8>
        ensures { result ≡ lowest_of FIRST self.now }
    {
        (FIRST..FIRST.saturating_add(8)).find(
            |number| -> bool
                ensures { result ≡ has_number FIRST self.entry.now number.now }
            { self.has(*number) },
        )
    }

    // The member with the highest number.
    pub fn highest(&self) -> Option<u8>
        ensures { result ≡ highest_of FIRST self.now }
    {
        (FIRST..FIRST.saturating_add(8)).rev().find(
            |number| -> bool
                ensures { result ≡ has_number FIRST self.entry.now number.now }
            { self.has(*number) },
        )
    }
}
