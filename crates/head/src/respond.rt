// What a head does with a message that fits the job and its record: one case for each state and kind. Link, picker, best and record are
// parameters of their own: a struct around several `&mut` would need a clause for each of their names in every function.
ghost use Rattle.std.specs.Prelude.{◌≡◌};
ghost use Rattle.job.specs.Lists.{every};
ghost use Rattle.job.specs.Plans.{unnamed_heads};
ghost use Rattle.link.specs.HeadSets.{has_head};
ghost use Rattle.link.specs.declared.message.Kind.TheVariants.{Report, Plan as PlanMessage, Return};
ghost use Rattle.head.specs.Replies.{carried};
ghost use Rattle.head.specs.Readiness.{Actable, Goes, Beginnable, quiet_turn, Fitting, Chooses};

use crate::best::Best;
use crate::record::{Record, State};
use crate::search::{Turn, search_on};
use crate::seat::Seat;
use crate::sending::unnamed;
use crate::setups::SetupSet;
use job::job::Job;
use job::plan::Plan;
use link::heads::HeadSet;
use link::link::Link;
use link::message::{Kind, Message};
use link::picker::Picker;
use link::sending::send;
use problem::price::Prices;
use scale::scale::Scale;

// Whether every head that a plan does not name was heard.
fn has_heard_all(job: &Job, plan: &Plan, heard: &HeadSet) -> bool
    ensures { result ≡ every (has_head heard.now) (unnamed_heads job.now plan.now) }
{
    (1..job.heads() + 1).all(|h| plan.names(h) || heard.has(h))
}

// A report: its bound is joined to the gathered one. When none is missing, the setup is given up where the best is at most what the
// plan will cost at least, and else the plan is handed on to the head that the picker picks.
fn hear<S: Scale, L: Link<Message<S>>, P: Picker>(
    prices: &Prices<S>,
    link: &mut L,
    picker: &mut P,
    known: &Record<S>,
    best: &mut Best<S>,
    message: &Message<S>,
) -> Turn<S>
    requires { Actable prices.now.job.now message.now.to known.now }
    ensures { Goes S.Scale.scale prices.now.job.now prices.now.costs.now known.now message.now best.old Report (L.Link.limit link.old) (L.Link.bag link.old) result best.new (L.Link.limit link.new) (L.Link.bag link.new) }
{
    let seat = Seat::of(message);
    let plan = known.received.name(seat.head, known.setup);
    let gathered = known.gathered.join(message.cost);
    let heard = known.heard.with(message.from);
    if !has_heard_all(prices.job, &plan, &heard) {
        return Turn {
            known: Record {
                state: State::Gathering,
                gathered,
                heard,
                ..*known
            },
            home: false,
            lost: false,
        };
    }
    if best.gives_up(known.trial.join(gathered)) {
        return search_on(prices, link, seat, known, best);
    }
    let picked = picker.pick(unnamed(prices.job, &plan));
    let hands_on = seat.message(Kind::Plan, picked, plan, known.trial);
    Turn {
        known: Record {
            state: State::Below,
            gathered,
            heard,
            ..*known
        },
        home: false,
        lost: send(link, hands_on).is_err(),
    }
}

// A plan message: the record takes it, and the head searches on from setup 0.
fn begin<S: Scale, L: Link<Message<S>>>(
    prices: &Prices<S>,
    link: &mut L,
    known: &Record<S>,
    best: &mut Best<S>,
    message: &Message<S>,
) -> Turn<S>
    requires { Beginnable prices.now.job.now message.now }
    ensures { Goes S.Scale.scale prices.now.job.now prices.now.costs.now known.now message.now best.old PlanMessage (L.Link.limit link.old) (L.Link.bag link.old) result best.new (L.Link.limit link.new) (L.Link.bag link.new) }
{
    let taken = Record {
        received: message.plan,
        cost: message.cost,
        sender: message.from,
        untried: SetupSet::below(prices.job.setups(message.to)),
        ..*known
    };
    let seat = Seat::of(message);
    search_on(prices, link, seat, &taken, best)
}

// A return: a lower cost replaces best and plan, and the head searches on.
fn resume<S: Scale, L: Link<Message<S>>>(
    prices: &Prices<S>,
    link: &mut L,
    known: &Record<S>,
    best: &mut Best<S>,
    message: &Message<S>,
) -> Turn<S>
    requires { Actable prices.now.job.now message.now.to known.now }
    ensures { Goes S.Scale.scale prices.now.job.now prices.now.costs.now known.now message.now best.old Return (L.Link.limit link.old) (L.Link.bag link.old) result best.new (L.Link.limit link.new) (L.Link.bag link.new) }
{
    *best = best.adopted(carried_by(message));
    let seat = Seat::of(message);
    search_on(prices, link, seat, known, best)
}

// The plan and cost that a message carries.
fn carried_by<S: Scale>(message: &Message<S>) -> Best<S>
    ensures { result ≡ carried message.now }
{
    Best {
        cost: message.cost,
        plan: message.plan,
    }
}

// The record as it is, and nothing sent.
fn quiet<S: Scale>(known: &Record<S>) -> Turn<S>
    ensures { result ≡ quiet_turn known.now }
{
    Turn {
        known: *known,
        home: false,
        lost: false,
    }
}

// What a head does with a message.
#[derive(Clone, Copy)]
pub enum Deed<S> {
    // a request: it owes a report
    Owes,
    // any other message that suits the state of its record
    Goes(Turn<S>),
    // a message that does not
    Unsuited,
}

// What the head does, by the state of its record and the kind of the message.
pub(crate) fn act<S: Scale, L: Link<Message<S>>, P: Picker>(
    prices: &Prices<S>,
    link: &mut L,
    picker: &mut P,
    known: &Record<S>,
    best: &mut Best<S>,
    message: &Message<S>,
) -> Deed<S>
    requires { Fitting prices.now.job.now known.now message.now }
    ensures { Chooses S.Scale.scale prices.now.job.now prices.now.costs.now known.now message.now best.old (L.Link.limit link.old) (L.Link.bag link.old) result best.new (L.Link.limit link.new) (L.Link.bag link.new) }
{
    match (known.state, message.kind) {
        (_, Kind::Request) => Deed::Owes,
        (State::Gathering, Kind::Report) => {
            Deed::Goes(hear(prices, link, picker, known, best, message))
        }
        (State::Resting, Kind::Plan) => Deed::Goes(begin(prices, link, known, best, message)),
        (State::Below, Kind::Return) => Deed::Goes(resume(prices, link, known, best, message)),
        (_, Kind::Notice) => {
            *best = best.adopted(carried_by(message));
            Deed::Goes(quiet(known))
        }
        (_, Kind::Stop) => {
            *best = carried_by(message);
            Deed::Goes(quiet(known))
        }
        (State::Resting, Kind::Report | Kind::Return)
        | (State::Gathering, Kind::Plan | Kind::Return)
        | (State::Below, Kind::Plan | Kind::Report) => Deed::Unsuited,
    }
}
