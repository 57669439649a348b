// Messages in words, for a person.
use link::message::Message;
use std::fmt;

// As "report from head 2 to head 1, 3 minutes".
#[derive(Clone, Copy)]
pub struct Words<S>(pub Message<S>);

impl<S: fmt::Display> fmt::Display for Words<S> {
    fn fmt<W: fmt::Write>(&self, f: &mut fmt::Formatter<W>) -> fmt::Result {
        let kind = self.0.kind;
        let from = self.0.from;
        let to = self.0.to;
        let cost = &self.0.cost;
        write!(f, "{kind} from head {from} to head {to}, {cost}")
    }
}
