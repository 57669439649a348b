// What a head knows of one search.
ghost use Rattle.std.specs.Prelude.{◌≡◌, Some};
ghost use Rattle.head.specs.Words.{state_word};

use crate::setups::SetupSet;
use job::plan::Plan;
use link::heads::HeadSet;
use scale::scale::Scale;
use std::fmt;

#[derive(Clone, Copy, Debug, PartialEq, Eq)]
pub enum State {
    // not on the search's way
    Resting,
    // has asked every head that the plan on trial does not name for its bound
    Gathering,
    // has handed the plan on trial on, and waits for its return
    Below,
}

// The state in a word.
impl fmt::Display for State {
    ghost output = { λ s. Some (state_word s) };

    fn fmt<W: fmt::Write>(&self, f: &mut fmt::Formatter<W>) -> fmt::Result {
        let word = match self {
            State::Resting => "resting",
            State::Gathering => "gathering",
            State::Below => "below",
        };
        write!(f, "{word}")
    }
}

// Of a resting record only the state means anything.
#[derive(Clone, Copy)]
pub struct Record<S> {
    pub state: State,
    // the plan that the head was sent, its cost, and who sent it; nobody, 0, where the search began here: heads are bytes in records as
    // in messages, and 0 is no head
    pub received: Plan,
    pub cost: S,
    pub sender: u8,
    // the setup on trial, what the plan costs with it, and the setups that are still to be tried
    pub setup: u8,
    pub trial: S,
    pub untried: SetupSet,
    // the join of the bounds that have come for this trial, and the heads from which they came
    pub gathered: S,
    pub heard: HeadSet,
}

impl<S: Scale> Record<S> {
    ghost use Rattle.head.specs.Lent.{blank};
    ghost use Rattle.head.specs.Readiness.{with_trial};

    // A record at rest.
    pub fn resting() -> Record<S>
        ensures { result ≡ blank S.Scale.scale }
    {
        Record {
            state: State::Resting,
            received: Plan::empty(),
            cost: S::nothing(),
            sender: 0,
            setup: 0,
            trial: S::nothing(),
            untried: SetupSet::below(0),
            gathered: S::nothing(),
            heard: HeadSet::empty(),
        }
    }

    // The record, copied out of its row: field by field, by a rule of the project.
    pub(crate) fn copied(&self) -> Record<S>
        ensures { result ≡ self.now }
    {
        Record {
            state: self.state,
            received: self.received,
            cost: self.cost,
            sender: self.sender,
            setup: self.setup,
            trial: self.trial,
            untried: self.untried,
            gathered: self.gathered,
            heard: self.heard,
        }
    }

    // The record with another setup on trial, what the plan costs with it, and the setups that are left then.
    pub(crate) fn on_trial(&self, setup: u8, trial: S, untried: SetupSet) -> Record<S>
        ensures { result ≡ with_trial self.now setup trial untried }
    {
        Record {
            setup,
            trial,
            untried,
            ..*self
        }
    }
}
