// The best plan that a head knows of.
ghost use Rattle.std.specs.Prelude.{◌≡◌};
ghost use Rattle.head.specs.Bests.{at_first, hopeless, adopted as adopted_of};

use job::plan::Plan;
use scale::scale::Scale;

// A complete plan with its cost, or the empty plan with never: no option, since a return and a stop carry it so.
#[derive(Clone, Copy)]
pub struct Best<S> {
    pub cost: S,
    pub plan: Plan,
}

impl<S: Scale> Best<S> {
    // No plan yet: the empty one, with never.
    pub fn none() -> Best<S>
        ensures { result ≡ at_first S.Scale.scale }
    {
        Best {
            cost: S::never(),
            plan: Plan::empty(),
        }
    }

    // Whether a plan on trial, which will cost at least `least`, is not worth going on with.
    pub fn gives_up(&self, least: S) -> bool
        ensures { result ≡ hopeless S.Scale.scale self.now least }
    {
        self.cost.at_most(least)
    }

    // The better of two: another one only where it costs less.
    pub fn adopted(self, other: Best<S>) -> Best<S>
        ensures { result ≡ adopted_of S.Scale.scale other self }
    {
        if self.cost.at_most(other.cost) {
            self
        } else {
            other
        }
    }
}
