// Where a head acts.
ghost use Rattle.std.specs.Prelude.{◌≡◌};
ghost use Rattle.link.specs.Messages.{message as message_of};
ghost use Rattle.head.specs.Readiness.{seat_of};

use job::plan::Plan;
use link::message::{Kind, Message};
use scale::scale::Scale;

// A head in one of the searches.
#[derive(Clone, Copy)]
pub struct Seat {
    pub head: u8,
    pub search: u8,
}

impl Seat {
    // The seat that a message is for.
    pub(crate) fn of<S: Scale>(message: &Message<S>) -> Seat
        ensures { result ≡ seat_of message.now }
    {
        Seat {
            head: message.to,
            search: message.search,
        }
    }

    // A message from the seat to a head.
    pub(crate) fn message<S: Scale>(self, kind: Kind, to: u8, plan: Plan, cost: S) -> Message<S>
        ensures { result ≡ message_of kind to self.head self.search plan cost }
    {
        Message {
            kind,
            to,
            from: self.head,
            search: self.search,
            plan,
            cost,
        }
    }
}
