// Posting many messages.
ghost use Rattle.linkdemo.specs.Filling.{Filled};

use job::refusal::Refusal;
use link::link::Link;

// Posts the messages in their order; refused with 10 at the first that does not fit.
#[tactic(auto, using(crate::proofs::Filling::posted_none, crate::proofs::Filling::posted_more))]
pub(crate) fn fill<M: Copy, L: Link<M>>(link: &mut L, messages: &[M]) -> Result<(), Refusal>
    ensures { Filled (L.Link.limit link.old) (L.Link.bag link.old) messages.now result (L.Link.limit link.new) (L.Link.bag link.new) }
{
    for message in messages {
        link.post(*message)?;
    }
    Ok(())
}
