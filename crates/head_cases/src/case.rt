// What a case is made of.
use head::record::State;
use link::message::Kind;

// One message to one head, and what there is before it comes.
#[derive(Clone, Copy)]
pub(crate) struct Case {
    // what the case shows, where its state and kind do not say it
    pub(crate) note: &'static str,
    // the head's record of the search: its state, the setup on trial, one head that was heard, and the bound gathered
    pub(crate) state: State,
    pub(crate) setup: u8,
    pub(crate) heard: Option<u8>,
    pub(crate) gathered: u32,
    // what the best costs that the head knows of
    pub(crate) best: Option<u32>,
    // the message, its plan for the first three heads, and its cost if that is not never
    pub(crate) kind: Kind,
    pub(crate) from: u8,
    pub(crate) to: u8,
    pub(crate) search: u8,
    pub(crate) plan: [Option<u8>; 3],
    pub(crate) minutes: Option<u32>,
    // which searches are out, by bits, as `receive` takes them
    pub(crate) out: u8,
    // how many messages the link can hold, at most 64
    pub(crate) places: usize,
    // whether the same message comes again before the owed report is posted
    pub(crate) again: bool,
}

// One message of each kind to head 2, in search 0, which is out.
pub(crate) const REQUEST: Case = Case {
    note: "",
    state: State::Resting,
    setup: 0,
    heard: None,
    gathered: 0,
    best: Some(211),
    kind: Kind::Request,
    from: 1,
    to: 2,
    search: 0,
    plan: [Some(0), None, None],
    minutes: Some(0),
    out: 0b01,
    places: 64,
    again: false,
};

pub(crate) const REPORT: Case = Case {
    kind: Kind::Report,
    from: 3,
    plan: [None, None, None],
    minutes: Some(120),
    ..REQUEST
};

pub(crate) const PLAN: Case = Case {
    kind: Kind::Plan,
    ..REQUEST
};

pub(crate) const RETURN: Case = Case {
    kind: Kind::Return,
    from: 3,
    plan: [Some(0), Some(0), Some(0)],
    minutes: Some(123),
    ..REQUEST
};

pub(crate) const NOTICE: Case = Case {
    kind: Kind::Notice,
    from: 3,
    plan: [Some(1), Some(0), Some(0)],
    minutes: Some(142),
    ..REQUEST
};

pub(crate) const STOP: Case = Case {
    kind: Kind::Stop,
    plan: [Some(1), Some(1), Some(1)],
    minutes: Some(234),
    ..REQUEST
};
