// Runs, and what they come to.

// A run under way: search v is out where bit v of `out` is set; `count` messages were taken. A run is plain numbers, as the calls of
// heads take them. It is neither copied nor let go, so that no plan is read from it: only `end` leads on. Its calls are given problem,
// link and memory each for itself: a struct around several `&mut` would need a clause for each of their names in every call.
pub struct Run {
    out: u8,
    count: u64,
}

// What `look` tells: how many searches are out, how many messages wait, and how many were taken.
#[derive(Clone, Copy)]
pub struct Seen {
    pub out: u8,
    pub waiting: usize,
    pub count: u64,
}

// A cheapest plan, packed in one number with the setup of head h in byte h - 1, the least byte first, and its cost.
// So it is a plain value of numbers, as a run is, with a byte of FF where the plan has one.
#[derive(Clone, Copy)]
pub struct Found<S> {
    pub packed: u64,
    pub cost: S,
}

// A run that has ended: of how many heads, after how many messages, and with what, or no plan.
#[derive(Drop)]
pub struct Ended<S> {
    heads: u8,
    count: u64,
    outcome: Option<Found<S>>,
}

pub mod deliver;
pub mod end;
pub mod look;
pub mod packing;
pub mod reading;
pub mod searches_out;
pub mod solve;
pub mod start;
pub mod stopping;
pub mod theorem;
