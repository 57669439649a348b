// What is printed of a case, in a short form.
use crate::case::Case;
use job::refusal::Refusal;
use link::message::{Kind, Message};
use scale::minutes::Minutes;
use scale::scale::Scale;
use std::fmt;

// As "gathering 3>2 report", with the note after a comma.
#[derive(Drop)]
pub(crate) struct Title<'a>(pub(crate) &'a Case);

impl fmt::Display for Title<'_> {
    fn fmt<W: fmt::Write>(&self, f: &mut fmt::Formatter<W>) -> fmt::Result {
        let state = self.0.state;
        let kind = self.0.kind;
        let from = self.0.from;
        let to = self.0.to;
        let note = self.0.note;
        let comma = if note.is_empty() { "" } else { ", " };
        write!(f, "{state} {from}>{to} {kind}{comma}{note}")
    }
}

// What a head that received a message did: it acted on it, or owed a report, which was posted then or refused. `Received` itself is not
// let go, so it is not kept to be printed.
#[derive(Drop)]
pub(crate) enum Acted {
    Done { kind: Kind, home: bool, lost: bool },
    Owed(Result<(), Refusal>),
}

// What receiving a message comes to.
#[derive(Drop)]
pub(crate) struct Answer(pub(crate) Result<Acted, Refusal>);

// As "done return, home", "owes, posted" or "refused 13".
impl fmt::Display for Answer {
    fn fmt<W: fmt::Write>(&self, f: &mut fmt::Formatter<W>) -> fmt::Result {
        match &self.0 {
            Ok(Acted::Done { kind, home, lost }) => {
                let home = if *home { ", home" } else { "" };
                let lost = if *lost { ", lost" } else { "" };
                write!(f, "done {kind}{home}{lost}")
            }
            Ok(Acted::Owed(Ok(()))) => write!(f, "owes, posted"),
            Ok(Acted::Owed(Err(refusal))) => {
                let number = refusal.number();
                write!(f, "owes, refused {number}")
            }
            Err(refusal) => {
                let number = refusal.number();
                write!(f, "refused {number}")
            }
        }
    }
}

// The minutes, or "none" where they are never.
#[derive(Drop)]
pub(crate) struct Cost(pub(crate) Minutes);

impl fmt::Display for Cost {
    fn fmt<W: fmt::Write>(&self, f: &mut fmt::Formatter<W>) -> fmt::Result {
        if self.0 == Minutes::never() {
            return write!(f, "none");
        }
        let minutes = self.0.value();
        write!(f, "{minutes}")
    }
}

// As "3>2 report 120".
#[derive(Drop)]
pub(crate) struct Words<'a>(pub(crate) &'a Message<Minutes>);

impl fmt::Display for Words<'_> {
    fn fmt<W: fmt::Write>(&self, f: &mut fmt::Formatter<W>) -> fmt::Result {
        let kind = self.0.kind;
        let from = self.0.from;
        let to = self.0.to;
        let cost = Cost(self.0.cost);
        write!(f, "{from}>{to} {kind} {cost}")
    }
}
