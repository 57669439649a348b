// Receiving a message.
ghost use Rattle.std.specs.Prelude.{◌≡◌, ◌-◌, ◌<◌, ◌≤◌, true, length, slice_index_or, slice_set};
ghost use Rattle.head.specs.Bests.{at_first};
ghost use Rattle.head.specs.Strays.{is_addressed as addressed_in};
ghost use Rattle.head.specs.Lent.{lent, lent_by, are_enough, SamePlaces, is_out as bit_set};
ghost use Rattle.head.specs.Receiving.{Responds, Placed, Heeds, Receives};

use crate::best::Best;
use crate::memory::{BESTS, Memory, RECORDS, ROW};
use crate::owed::OwedReport;
use crate::record::Record;
use crate::respond::{Deed, act};
use crate::stray::{is_addressed, is_due, is_sound};
use job::refusal::Refusal;
use link::link::Link;
use link::message::{Kind, Message};
use link::picker::Picker;
use problem::place::PLACES;
use problem::price::{Prices, Problem};
use scale::scale::Scale;

// What a head has made of a message. It is not let go, since a report may be owed.
pub enum Received {
    // a request: the report is owed
    Owes(OwedReport),
    // any other message: the head has acted; whether the search came home, and whether a message that it sent was lost
    Done { kind: Kind, home: bool, lost: bool },
}

// Whether there are 64 records, 8 bests and 1,792 costs: `Memory::is_enough` of records and bests that are lent for reading only.
pub fn is_enough<S: Scale>(costs: &[S], records: &[Record<S>], bests: &[Best<S>]) -> bool
    ensures { result ≡ are_enough records.now bests.now costs.now }
{
    records.len() >= RECORDS && bests.len() >= BESTS && costs.len() >= PLACES
}

// Whether a search is out, by its bit: `out` is of a run, and a run is a state of plain numbers.
fn is_out(out: u8, search: u8) -> bool
    requires { search < 8 }
    ensures { result ≡ bit_set out search }
{
    (out >> search) & 1 == 1
}

// Puts a record back into its place, whole.
fn write_back<S: Scale>(row: &mut [Record<S>], v: usize, known: Record<S>)
    requires { v < length row.old }
    ensures { row.new ≡ slice_set row.old v known }
{
    row[v] = known;
}

// Lets a head act on its record of the message's search, in its own row of eight.
fn respond<S: Scale, L: Link<Message<S>>, P: Picker>(
    prices: &Prices<S>,
    link: &mut L,
    picker: &mut P,
    out: bool,
    row: &mut [Record<S>],
    best: &mut Best<S>,
    message: &Message<S>,
) -> Result<Received, Refusal>
    requires row { length row.old ≡ 8 }
    requires addressed { addressed_in prices.now.job.now message.now ≡ true }
    ensures { Responds S.Scale.scale prices.now.job.now prices.now.costs.now out row.old best.old message.now (L.Link.limit link.old) (L.Link.bag link.old) result row.new best.new (L.Link.limit link.new) (L.Link.bag link.new) }
{
    let v = message.search as usize;
    let known = row[v].copied();
    if !is_sound(prices.job, message.to, &known) {
        return Err(Refusal::Stray);
    }
    if !is_due(prices.job, out, &known, message) {
        return Err(Refusal::Stray);
    }
    match act(prices, link, picker, &known, best, message) {
        Deed::Goes(turn) => {
            write_back(row, v, turn.known);
            Ok(Received::Done {
                kind: message.kind,
                home: turn.home,
                lost: turn.lost,
            })
        }
        Deed::Owes => Ok(Received::Owes(OwedReport {
            to: message.from,
            from: message.to,
            search: message.search,
            plan: message.plan,
        })),
        Deed::Unsuited => Err(Refusal::Stray),
    }
}

// Lets the head to which a message goes act: on its own row of eight records, lent as the middle part of all records, and on its best.
fn heed<S: Scale, L: Link<Message<S>>, P: Picker>(
    out: u8,
    prices: &Prices<S>,
    link: &mut L,
    picker: &mut P,
    memory: &mut Memory<S>,
    message: &Message<S>,
) -> Result<Received, Refusal>
    requires { Placed prices.now.job.now memory.old.records.now memory.old.bests.now message.now }
    ensures heeds { Heeds S.Scale.scale out
        (lent prices.now.job.now prices.now.costs.now memory.old.records.now memory.old.bests.now (L.Link.limit link.old) (L.Link.bag link.old))
        message.now result
        (lent prices.now.job.now prices.now.costs.now memory.new.records.now memory.new.bests.now (L.Link.limit link.new) (L.Link.bag link.new)) }
    ensures places { SamePlaces memory.old memory.new }
{
    let head = message.to as usize - 1;
    let first = ROW * head;
    // by a name of their own: the loan of an element, beside that of the row, does not go through the field
    let bests = &mut *memory.bests;
    respond(
        prices,
        link,
        picker,
        is_out(out, message.search),
        &mut memory.records[first..first + ROW],
        &mut bests[head],
        message,
    )
}

// Lets the head to which a message goes act, unless the message is not from one head of the job to another.
fn sort_out<S: Scale, L: Link<Message<S>>, P: Picker>(
    out: u8,
    prices: &Prices<S>,
    link: &mut L,
    picker: &mut P,
    memory: &mut Memory<S>,
    message: &Message<S>,
) -> Result<Received, Refusal>
    requires records { 64 ≤ length memory.old.records.now }
    requires bests { 8 ≤ length memory.old.bests.now }
    ensures heeds { Heeds S.Scale.scale out
        (lent prices.now.job.now prices.now.costs.now memory.old.records.now memory.old.bests.now (L.Link.limit link.old) (L.Link.bag link.old))
        message.now result
        (lent prices.now.job.now prices.now.costs.now memory.new.records.now memory.new.bests.now (L.Link.limit link.new) (L.Link.bag link.new)) }
    ensures places { SamePlaces memory.old memory.new }
{
    if !is_addressed(prices.job, message) {
        return Err(Refusal::Stray);
    }
    heed(out, prices, link, picker, memory, message)
}

// Takes one message out of the link into the place, and lets its head act: on its own row of eight records, and on its best. Refused
// with 7 for too little memory, with 11 where none waits, and with 13 where the message is stray; a stray message is taken, and the
// rest stays. A request is not answered here: its report is owed, and `post_report` posts it. `out` tells by its bits which searches
// are out, since a run is a state of plain numbers.
pub fn receive<S: Scale, L: Link<Message<S>>, P: Picker>(
    out: u8,
    problem: &Problem<S>,
    link: &mut L,
    picker: &mut P,
    memory: &mut Memory<S>,
    place: &mut Message<S>,
) -> Result<Received, Refusal>
    ensures receives { Receives S.Scale.scale out
        (lent_by problem.now memory.old (L.Link.limit link.old) (L.Link.bag link.old))
        place.old result
        (lent_by problem.now memory.new (L.Link.limit link.new) (L.Link.bag link.new))
        place.new }
    ensures places { SamePlaces memory.old memory.new }
{
    if !memory.is_enough(problem) {
        return Err(Refusal::TooLittle);
    }
    let prices = problem.prices()?;
    link.take(place)?;
    sort_out(out, &prices, link, picker, memory, place)
}
