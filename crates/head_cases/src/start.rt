// What there is before the message comes: the costs, the head's record and best, and the message.
use crate::case::Case;
use head::best::Best;
use head::record::Record;
use head::setups::SetupSet;
use job::plan::Plan;
use link::heads::HeadSet;
use link::message::Message;
use problem::place::place;
use problem::price::Problem;
use scale::minutes::Minutes;
use scale::scale::Scale;

// head a, its setup, head b, its setup, and what they cost each other in minutes
const COSTS: [(u8, u8, u8, u8, u32); 12] = [
    (1, 0, 2, 0, 3),
    (1, 0, 2, 1, 1),
    (1, 1, 2, 0, 2),
    (1, 1, 2, 1, 4),
    (1, 0, 3, 0, 20),
    (1, 0, 3, 1, 10),
    (1, 1, 3, 0, 40),
    (1, 1, 3, 1, 30),
    (2, 0, 3, 0, 100),
    (2, 0, 3, 1, 300),
    (2, 1, 3, 0, 400),
    (2, 1, 3, 1, 200),
];

pub(crate) fn lay_out(costs: &mut [Minutes]) {
    for (a, i, b, j, minutes) in COSTS {
        if let Some(at) = place(a, i, b, j) {
            if let Some(entry) = costs.get_mut(at) {
                *entry = Minutes::capped(minutes);
            }
        }
    }
}

// So many minutes, or never.
fn cost(minutes: Option<u32>) -> Minutes {
    minutes.map_or(Minutes::never(), Minutes::capped)
}

fn plan(setups: [Option<u8>; 3]) -> Plan {
    let mut plan = Plan::empty();
    for (head, setup) in (1..=3).zip(setups) {
        if let Some(setup) = setup {
            plan = plan.name(head, setup);
        }
    }
    plan
}

pub(crate) fn message(case: &Case) -> Message<Minutes> {
    Message {
        kind: case.kind,
        to: case.to,
        from: case.from,
        search: case.search,
        plan: plan(case.plan),
        cost: cost(case.minutes),
    }
}

// Some complete plan at the best's cost, or none.
pub(crate) fn best(case: &Case) -> Best<Minutes> {
    match case.best {
        Some(minutes) => Best {
            cost: Minutes::capped(minutes),
            plan: plan([Some(0), Some(1), Some(1)]),
        },
        None => Best::none(),
    }
}

// The head's record: in search v head 1 tries its setup v alone, and hands it on to the others, which try both of theirs.
pub(crate) fn known(problem: &Problem<Minutes>, case: &Case) -> Record<Minutes> {
    let began = case.to == 1;
    let received = if began {
        Plan::empty()
    } else {
        Plan::empty().name(1, case.search)
    };
    let trial = problem.against(case.to, case.setup, &received);
    Record {
        state: case.state,
        received,
        cost: Minutes::nothing(),
        sender: if began { 0 } else { 1 },
        setup: case.setup,
        trial: trial.unwrap_or(Minutes::nothing()),
        untried: if began || case.setup > 0 {
            SetupSet::below(0)
        } else {
            SetupSet::only(1)
        },
        gathered: Minutes::capped(case.gathered),
        heard: case.heard.map_or(HeadSet::empty(), HeadSet::only),
    }
}
