// How the heads send messages.
ghost use Rattle.std.specs.Prelude.{◌≡◌};
ghost use Rattle.link.specs.Fitting.{OthersFitBesideNotices, MessagesAreOthersAndNotices};
ghost use Rattle.link.specs.Posting.{Sends};

use crate::link::Link;
use crate::message::Message;
use job::refusal::Refusal;
use scale::scale::Scale;

// The places that notices leave free: one for each of 8 searches and each of 7 other heads. Messages that no head may miss then
// always fit.
pub const MARGIN: usize = 56;

// Posts a message, but drops a notice where as many messages wait as the limit less 56 says. Refused with 10 where the link is
// full; the message is lost then.
#[tactic(auto, using(crate::proofs::Posting::sent_posted))]
pub fn send<S: Scale, L: Link<Message<S>>>(link: &mut L, message: Message<S>) -> Result<(), Refusal>
    ensures { Sends (L.Link.limit link.old) (L.Link.bag link.old) message result (L.Link.limit link.new) (L.Link.bag link.new) }
{
    if message.kind.is_notice() && link.waiting() >= link.limit().saturating_sub(MARGIN) {
        return Ok(());
    }
    link.post(message)
}

// A theorem: sending drops notices and loses no other message, while the others that wait and are sent are at most 56.
pub fn posting_stands<S: Scale>() -> u8
    ensures answer { result ≡ 0 }
    ensures others { OthersFitBesideNotices S }
    ensures both { MessagesAreOthersAndNotices S }
{
    0
}
