// Searching on: a head tries the setups that are left. Link, best and record are parameters of their own: a struct around several `&mut`
// would need a clause for each of their names in every function.
ghost use Rattle.std.specs.Prelude.{◌≡◌, false, map};
ghost use Rattle.job.specs.Plans.{unnamed_heads};
ghost use Rattle.link.specs.declared.message.Kind.TheVariants.{Notice, Request};
ghost use Rattle.link.specs.Messages.{message as message_of};
ghost use Rattle.link.specs.Posting.{Sent};
ghost use Rattle.head.specs.Searching.{others as other_heads, search_on};
ghost use Rattle.head.specs.Replies.{task};
ghost use Rattle.head.specs.Readiness.{Ready, Gathers, ComesBack, Searches};

use crate::best::Best;
use crate::record::{Record, State};
use crate::seat::Seat;
use crate::sending::{others, send_each, unnamed};
use job::job::Job;
use job::plan::Plan;
use link::heads::HeadSet;
use link::link::Link;
use link::message::{Kind, Message};
use link::sending::send;
use problem::price::Prices;
use scale::scale::Scale;

// What a head's act comes to, besides its best: its record, whether the search came home, and whether a message was lost. `lost` is a
// flag, since the act is done all the same: it is no refusal.
#[derive(Clone, Copy)]
pub struct Turn<S> {
    pub known: Record<S>,
    pub home: bool,
    pub lost: bool,
}

// Tells every other head of a complete plan. Notices are dropped where too many messages wait, and never lost.
fn notify<S: Scale, L: Link<Message<S>>>(job: &Job, link: &mut L, seat: Seat, found: Best<S>)
    ensures { Sent (L.Link.limit link.old) (L.Link.bag link.old) (map (λ g. message_of Notice g seat.head seat.search found.plan found.cost) (other_heads job.now seat.head)) false (L.Link.limit link.new) (L.Link.bag link.new) }
{
    let _ = send_each(
        job,
        link,
        others(job, seat.head),
        seat.message(Kind::Notice, seat.head, found.plan, found.cost),
    );
}

// Asks every head that a plan does not name for its bound. Answers whether a request was lost.
fn ask<S: Scale, L: Link<Message<S>>>(job: &Job, link: &mut L, seat: Seat, plan: Plan) -> bool
    ensures { Sent (L.Link.limit link.old) (L.Link.bag link.old) (map (λ g. message_of Request g seat.head seat.search plan S.Scale.scale.nothing) (unnamed_heads job.now plan)) result (L.Link.limit link.new) (L.Link.bag link.new) }
{
    send_each(
        job,
        link,
        unnamed(job, &plan),
        seat.message(Kind::Request, seat.head, plan, S::nothing()),
    )
}

// Puts a setup on trial: the record gathers the bounds of the heads that the plan with it does not name.
fn gather<S: Scale, L: Link<Message<S>>>(
    job: &Job,
    link: &mut L,
    seat: Seat,
    known: Record<S>,
) -> Turn<S>
    ensures { Gathers S.Scale.scale job.now seat.head seat.search known (L.Link.limit link.old) (L.Link.bag link.old) result (L.Link.limit link.new) (L.Link.bag link.new) }
{
    let lost = ask(job, link, seat, known.received.name(seat.head, known.setup));
    Turn {
        known: Record {
            state: State::Gathering,
            gathered: S::nothing(),
            heard: HeadSet::empty(),
            ..known
        },
        home: false,
        lost,
    }
}

// After the last setup: the record rests, and the head that sent the plan is told the best; at head 1 the search is home instead.
fn come_back<S: Scale, L: Link<Message<S>>>(
    link: &mut L,
    seat: Seat,
    known: &Record<S>,
    best: &Best<S>,
) -> Turn<S>
    ensures { ComesBack seat.head seat.search known.now best.now (L.Link.limit link.old) (L.Link.bag link.old) result (L.Link.limit link.new) (L.Link.bag link.new) }
{
    let rested = Record {
        state: State::Resting,
        ..*known
    };
    if seat.head == 1 {
        return Turn {
            known: rested,
            home: true,
            lost: false,
        };
    }
    let message = seat.message(Kind::Return, known.sender, best.plan, best.cost);
    Turn {
        known: rested,
        home: false,
        lost: send(link, message).is_err(),
    }
}

// Tries the setups that are left, the lowest first, until the others have to be asked or none is left. Public only for the crate of
// runs, which begins the searches and shows that head 1 can.
pub fn search_on<S: Scale, L: Link<Message<S>>>(
    prices: &Prices<S>,
    link: &mut L,
    seat: Seat,
    known: &Record<S>,
    best: &mut Best<S>,
) -> Turn<S>
    requires { Ready prices.now.job.now seat.head known.now.received known.now.untried }
    ensures { Searches (search_on S.Scale.scale prices.now.job.now prices.now.costs.now seat.head seat.search (task known.now) known.now.untried best.old) (L.Link.limit link.old) (L.Link.bag link.old) result best.new (L.Link.limit link.new) (L.Link.bag link.new) }
{
    let mut untried = known.untried;
    while let Some(setup) = untried.lowest() {
        untried = untried.without(setup);
        let trial = known
            .cost
            .join(prices.against(seat.head, setup, &known.received));
        if best.gives_up(trial) {
            continue;
        }
        let plan = known.received.name(seat.head, setup);
        if !prices.job.is_complete(&plan) {
            return gather(
                prices.job,
                link,
                seat,
                known.on_trial(setup, trial, untried),
            );
        }
        *best = Best { cost: trial, plan };
        notify(prices.job, link, seat, *best);
    }
    come_back(link, seat, known, best)
}
