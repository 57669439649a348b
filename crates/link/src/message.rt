// What the heads tell each other.
ghost use Rattle.std.specs.Prelude.{◌≡◌, Some};
ghost use Rattle.link.specs.Messages.{is_notice as counts_as_notice, kind_word, addressed, blank as blank_message};

use job::plan::Plan;
use scale::scale::Scale;
use std::fmt;

#[derive(Clone, Copy, Debug, PartialEq, Eq)]
pub enum Kind {
    // asks a head for its bound on a plan
    Request,
    // tells that bound
    Report,
    // hands a plan on, to be completed
    Plan,
    // tells the head that handed a plan on the best that is known when all is tried
    Return,
    // tells of a complete plan that was found
    Notice,
    // ends the run with the best plan of all
    Stop,
}

impl Kind {
    pub fn is_notice(self) -> bool
        ensures { result ≡ counts_as_notice self }
    {
        self == Kind::Notice
    }
}

// The kind in a word.
impl fmt::Display for Kind {
    ghost output = { λ k. Some (kind_word k) };

    fn fmt<W: fmt::Write>(&self, f: &mut fmt::Formatter<W>) -> fmt::Result {
        let word = match self {
            Kind::Request => "request",
            Kind::Report => "report",
            Kind::Plan => "plan",
            Kind::Return => "return",
            Kind::Notice => "notice",
            Kind::Stop => "stop",
        };
        write!(f, "{word}")
    }
}

// A message from one head to another, about one of the searches.
#[derive(Clone, Copy)]
pub struct Message<S> {
    pub kind: Kind,
    pub to: u8,
    pub from: u8,
    pub search: u8,
    pub plan: Plan,
    pub cost: S,
}

impl<S: Copy> Message<S> {
    // The same message to another head.
    pub fn addressed(&self, head: u8) -> Message<S>
        ensures { result ≡ addressed self.now head }
    {
        Message { to: head, ..*self }
    }
}

impl<S: Scale> Message<S> {
    // What a place for messages has before a message was put into it: a message that tells nothing.
    pub fn blank() -> Message<S>
        ensures { result ≡ blank_message S.Scale.scale }
    {
        Message {
            kind: Kind::Request,
            to: 0,
            from: 0,
            search: 0,
            plan: Plan::empty(),
            cost: S::nothing(),
        }
    }
}
