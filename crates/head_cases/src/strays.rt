// Messages that are stray, each for one reason.
use crate::case::{Case, NOTICE, PLAN, REPORT, REQUEST, RETURN, STOP};
use head::record::State;

// a plan that names the first two of the three heads, and one that names none
const PARTIAL: [Option<u8>; 3] = [Some(0), Some(0), None];

const EMPTY: [Option<u8>; 3] = [None, None, None];

pub(crate) static STRAYS: [Case; 19] = [
    Case {
        note: "heads equal",
        from: 2,
        ..NOTICE
    },
    Case {
        note: "from no head of the job",
        from: 4,
        ..NOTICE
    },
    Case {
        note: "to no head of the job",
        to: 4,
        ..NOTICE
    },
    Case {
        note: "no such search",
        search: 2,
        ..NOTICE
    },
    Case {
        note: "no such setup",
        plan: [Some(1), Some(2), Some(0)],
        ..NOTICE
    },
    Case {
        note: "no such setup on trial",
        state: State::Gathering,
        setup: 2,
        ..NOTICE
    },
    Case {
        note: "no such head heard",
        state: State::Gathering,
        heard: Some(4),
        ..NOTICE
    },
    Case {
        note: "heard twice",
        state: State::Gathering,
        heard: Some(2),
        from: 2,
        to: 1,
        ..REPORT
    },
    Case {
        note: "from a head on trial",
        state: State::Gathering,
        from: 1,
        ..REPORT
    },
    Case {
        note: "search not out",
        state: State::Gathering,
        out: 0b10,
        ..REPORT
    },
    Case {
        note: "search not out",
        state: State::Below,
        out: 0b10,
        ..RETURN
    },
    Case {
        note: "plan names the head",
        plan: PARTIAL,
        ..REQUEST
    },
    Case {
        note: "plan names the head",
        plan: PARTIAL,
        ..PLAN
    },
    Case {
        note: "to head 1",
        from: 2,
        to: 1,
        plan: [None, Some(0), None],
        ..PLAN
    },
    Case {
        note: "partial plan",
        state: State::Below,
        plan: PARTIAL,
        ..RETURN
    },
    Case {
        note: "partial plan",
        plan: PARTIAL,
        ..NOTICE
    },
    Case {
        note: "empty plan",
        plan: EMPTY,
        ..NOTICE
    },
    Case {
        note: "partial plan",
        plan: PARTIAL,
        ..STOP
    },
    Case {
        note: "to head 1",
        from: 2,
        to: 1,
        ..STOP
    },
];
