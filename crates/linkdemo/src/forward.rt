// What any head does with a message, over any scale, link and picker: proved from their traits alone.
ghost use Rattle.std.specs.Prelude.{◌≡◌};
ghost use Rattle.linkdemo.specs.Forwarding.{sent_on, ForwardedTo, Forwarded};

use job::refusal::Refusal;
use link::heads::HeadSet;
use link::link::Link;
use link::message::Message;
use link::picker::Picker;
use scale::scale::Scale;

// Takes a message into the place, joins the surcharge to its cost, and posts it to a head of the set. Refused with 11 exactly
// where none waits: the message that was taken leaves room for the one that is posted.
pub fn forward<S: Scale, L: Link<Message<S>>, P: Picker>(
    link: &mut L,
    picker: &mut P,
    heads: HeadSet,
    surcharge: S,
    place: &mut Message<S>,
) -> Result<(), Refusal>
    ensures { Forwarded S.Scale.scale surcharge heads (L.Link.limit link.old) (L.Link.bag link.old) place.old result (L.Link.limit link.new) (L.Link.bag link.new) place.new }
{
    let head = picker.pick(heads);
    forward_to(link, head, surcharge, place)
}

#[tactic(auto, using(crate::proofs::Forwarding::taken_then_posted))]
fn forward_to<S: Scale, L: Link<Message<S>>>(
    link: &mut L,
    head: u8,
    surcharge: S,
    place: &mut Message<S>,
) -> Result<(), Refusal>
    ensures { ForwardedTo S.Scale.scale surcharge head (L.Link.limit link.old) (L.Link.bag link.old) place.old result (L.Link.limit link.new) (L.Link.bag link.new) place.new }
{
    link.take(place)?;
    *place = readdressed(*place, head, surcharge);
    link.post(*place)
}

// The message to another head, at the cost with the surcharge.
fn readdressed<S: Scale>(message: Message<S>, head: u8, surcharge: S) -> Message<S>
    ensures { result ≡ sent_on S.Scale.scale surcharge head message }
{
    Message {
        cost: message.cost.join(surcharge),
        ..message.addressed(head)
    }
}
