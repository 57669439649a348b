// Requests, and reports that a record waits for.
use crate::case::{Case, REPORT, REQUEST};
use head::record::State;

// The last of the two reports to head 1.
const LAST: Case = Case {
    note: "the last",
    state: State::Gathering,
    heard: Some(2),
    gathered: 1,
    to: 1,
    minutes: Some(10),
    ..REPORT
};

pub(crate) static ANSWERS: [Case; 9] = [
    Case {
        note: "two heads named",
        from: 2,
        to: 3,
        plan: [Some(0), Some(0), None],
        ..REQUEST
    },
    Case {
        note: "the other search",
        search: 1,
        plan: [Some(1), None, None],
        ..REQUEST
    },
    Case {
        note: "link full",
        places: 1,
        again: true,
        ..REQUEST
    },
    Case {
        note: "one is missing",
        state: State::Gathering,
        from: 2,
        to: 1,
        minutes: Some(1),
        ..REPORT
    },
    LAST,
    Case {
        note: "just worth it",
        best: Some(12),
        ..LAST
    },
    Case {
        note: "hopeless",
        best: Some(11),
        ..LAST
    },
    Case {
        note: "hopeless",
        state: State::Gathering,
        best: Some(123),
        ..REPORT
    },
    Case {
        note: "hopeless, no setup left",
        state: State::Gathering,
        setup: 1,
        best: Some(123),
        minutes: Some(210),
        ..REPORT
    },
];
