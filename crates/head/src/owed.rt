// Reports that are owed.
ghost use Rattle.head.specs.Owing.{Reports};

use job::plan::Plan;
use job::refusal::Refusal;
use link::link::Link;
use link::message::{Kind, Message};
use link::sending::send;
use problem::price::Problem;
use scale::scale::Scale;

// A report that a head owes, since it took a request: to which head, from which, in which search, and for which plan. It is neither
// copied nor let go: only `post_report` uses it up.
pub struct OwedReport {
    pub(crate) to: u8,
    pub(crate) from: u8,
    pub(crate) search: u8,
    pub(crate) plan: Plan,
}

// Posts the report with the head's bound, and uses the debt up, even where the post is refused. Refused as `bound` is, then with 10
// where the link is full; the report is lost then.
pub fn post_report<S: Scale, L: Link<Message<S>>>(
    owed: OwedReport,
    problem: &Problem<S>,
    link: &mut L,
) -> Result<(), Refusal>
    ensures { Reports S.Scale.scale problem.now.job.now problem.now.costs.now owed (L.Link.limit link.old) (L.Link.bag link.old) result (L.Link.limit link.new) (L.Link.bag link.new) }
{
    let OwedReport {
        to,
        from,
        search,
        plan,
    } = owed;
    let cost = problem.bound(from, &plan)?;
    send(
        link,
        Message {
            kind: Kind::Report,
            to,
            from,
            search,
            plan: Plan::empty(),
            cost,
        },
    )
}
