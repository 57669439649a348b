// Sending one message to several heads.
ghost use Rattle.std.specs.Prelude.{◌≡◌};
ghost use Rattle.job.specs.Plans.{unnamed_heads};
ghost use Rattle.link.specs.HeadSets.{heads_in};
ghost use Rattle.link.specs.Posting.{Sent};
ghost use Rattle.head.specs.Searching.{others as other_heads};
ghost use Rattle.head.specs.Sendings.{to_each, heads_of};

use job::job::Job;
use job::plan::Plan;
use link::heads::HeadSet;
use link::link::Link;
use link::message::Message;
use link::sending::send;
use scale::scale::Scale;

// The heads of the job that a plan does not name.
pub(crate) fn unnamed(job: &Job, plan: &Plan) -> HeadSet
    ensures { result ≡ heads_in (unnamed_heads job.now plan.now) }
{
    (1..job.heads() + 1)
        .filter(|h| !plan.names(*h))
        .fold(HeadSet::empty(), HeadSet::with)
}

// The heads of the job but one.
pub fn others(job: &Job, head: u8) -> HeadSet
    ensures { result ≡ heads_in (other_heads job.now head) }
{
    (1..job.heads() + 1)
        .filter(|h| *h != head)
        .fold(HeadSet::empty(), HeadSet::with)
}

// Sends a message to each of some heads of the job, ascending. Answers whether one was lost; the rest are sent all the same.
pub fn send_each<S: Scale, L: Link<Message<S>>>(
    job: &Job,
    link: &mut L,
    heads: HeadSet,
    message: Message<S>,
) -> bool
    ensures { Sent (L.Link.limit link.old) (L.Link.bag link.old) (to_each message (heads_of job.now heads)) result (L.Link.limit link.new) (L.Link.bag link.new) }
{
    // a loop, since each turn writes to the link
    let mut lost = false;
    for h in 1..=job.heads() {
        if heads.has(h) {
            lost |= send(link, message.addressed(h)).is_err();
        }
    }
    lost
}
