// Stopping the other heads, when the last search has come home.
ghost use Rattle.link.specs.Posting.{Sent};
ghost use Rattle.run.specs.Worlds.{stops};

use head::best::Best;
use head::sending::{others, send_each};
use job::job::Job;
use link::link::Link;
use link::message::{Kind, Message};
use scale::scale::Scale;

// Head 1 sends a stop with its best to each other head, ascending. Answers whether one was lost.
pub(crate) fn stop_others<S: Scale, L: Link<Message<S>>>(
    job: &Job,
    link: &mut L,
    best: &Best<S>,
) -> bool
    ensures { Sent (L.Link.limit link.old) (L.Link.bag link.old) (stops job.now best.now) result (L.Link.limit link.new) (L.Link.bag link.new) }
{
    send_each(
        job,
        link,
        others(job, 1),
        Message {
            kind: Kind::Stop,
            to: 1,
            from: 1,
            search: 0,
            plan: best.plan,
            cost: best.cost,
        },
    )
}
