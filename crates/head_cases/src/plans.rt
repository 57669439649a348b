// Plans that are handed on and come back, notices and stops.
use crate::case::{Case, NOTICE, PLAN, RETURN, STOP};
use head::record::State;

// A plan that names nobody, so that head 2 asks both others.
const TWO_TO_ASK: Case = Case {
    note: "two to ask",
    plan: [None, None, None],
    ..PLAN
};

// A plan that head 3 completes.
const FOUND: Case = Case {
    note: "plan found",
    best: None,
    from: 2,
    to: 3,
    plan: [Some(0), Some(0), None],
    minutes: Some(3),
    ..PLAN
};

pub(crate) static PLANS: [Case; 12] = [
    TWO_TO_ASK,
    Case {
        note: "a message lost",
        places: 1,
        ..TWO_TO_ASK
    },
    FOUND,
    Case {
        note: "two found",
        plan: [Some(0), Some(1), None],
        minutes: Some(1),
        ..FOUND
    },
    Case {
        note: "none worth it",
        best: Some(123),
        ..FOUND
    },
    Case {
        note: "room for one notice",
        places: 57,
        ..FOUND
    },
    Case {
        note: "notices dropped",
        places: 1,
        ..FOUND
    },
    Case {
        note: "home",
        state: State::Below,
        from: 2,
        to: 1,
        ..RETURN
    },
    Case {
        note: "nothing found",
        state: State::Below,
        best: None,
        plan: [None, None, None],
        minutes: None,
        ..RETURN
    },
    Case {
        note: "no better",
        state: State::Below,
        setup: 1,
        best: Some(100),
        ..RETURN
    },
    Case {
        note: "no better",
        best: Some(123),
        ..NOTICE
    },
    Case {
        note: "nothing found",
        plan: [None, None, None],
        minutes: None,
        ..STOP
    },
];
