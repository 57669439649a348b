// Looking at a run.
ghost use Rattle.run.specs.Promises.{LookPromise};

use super::{Run, Seen};
use link::link::Link;
use link::message::Message;
use scale::scale::Scale;

impl Run {
    // How many searches are out, how many messages wait, and how many were taken. Never refused; nothing moves.
    pub fn look<S: Scale, L: Link<Message<S>>>(&self, link: &L) -> Seen
        ensures { LookPromise S.Scale.scale self.now (L.Link.bag link.now) result }
    {
        Seen {
            out: self.out.count_ones() as u8,
            waiting: link.waiting(),
            count: self.count,
        }
    }
}
