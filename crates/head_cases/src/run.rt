// Running a case.
use crate::case::Case;
use crate::start::{best, known, message};
use crate::words::{Acted, Answer, Cost, Title, Words};
use head::best::Best;
use head::memory::{BESTS, Memory, RECORDS, ROW};
use head::owed::post_report;
use head::receive::{Received, receive};
use head::record::{Record, State};
use job::refusal::Refusal;
use link::first_in::FirstIn;
use link::link::Link;
use link::message::Message;
use link::picker::Lowest;
use problem::price::Problem;
use scale::minutes::Minutes;

// the most messages that the link of a case can hold
const LIMIT: usize = 64;

// Where the record of the message's receiver lies.
fn spot(case: &Case) -> usize {
    ROW * (case.to as usize).saturating_sub(1) + case.search as usize
}

// Posts the message, lets its head receive it, and prints a line of what comes of that.
pub(crate) fn run(rt: &HostRuntime, problem: &Problem<Minutes>, case: &Case) -> anyhow::Result<()> {
    let mut places = [message(case); LIMIT];
    let room = case.places.min(LIMIT);
    let mut link = FirstIn::new(&mut places[..room]);
    link.post(message(case))?;
    let mut bests = [best(case); BESTS];
    let before = known(problem, case);
    let mut records = rested(before);
    put(&mut records, spot(case), before);
    let mut memory = Memory {
        records: &mut records,
        bests: &mut bests,
    };
    let answer = Answer(acted(problem, &mut link, &mut memory, case));
    let title = Title(case);
    print!(rt; "  {title}: {answer}")?;
    show_head(rt, &records, &bests, case)?;
    show_waiting(rt, &mut link, message(case))
}

// As many records as all heads have, all resting.
fn rested(known: Record<Minutes>) -> [Record<Minutes>; RECORDS] {
    let resting = Record {
        state: State::Resting,
        ..known
    };
    [resting; RECORDS]
}

// Puts a record into its place, if there is one.
fn put(records: &mut [Record<Minutes>], at: usize, known: Record<Minutes>) {
    if let Some(record) = records.get_mut(at) {
        *record = known;
    }
}

// Lets the head receive the message, and posts the report that it then may owe.
fn acted<L: Link<Message<Minutes>>>(
    problem: &Problem<Minutes>,
    link: &mut L,
    memory: &mut Memory<Minutes>,
    case: &Case,
) -> Result<Acted, Refusal> {
    let mut place = message(case);
    let received = receive(case.out, problem, link, &mut Lowest {}, memory, &mut place)?;
    match received {
        Received::Done { kind, home, lost } => Ok(Acted::Done { kind, home, lost }),
        Received::Owes(owed) => {
            if case.again {
                let _ = link.post(place);
            }
            Ok(Acted::Owed(post_report(owed, problem, link)))
        }
    }
}

// Prints the state of the head's record, and what its best costs.
fn show_head(
    rt: &HostRuntime,
    records: &[Record<Minutes>],
    bests: &[Best<Minutes>],
    case: &Case,
) -> anyhow::Result<()> {
    if let Some(known) = records.get(spot(case)) {
        let state = known.state;
        print!(rt; " | {state}")?;
    }
    if let Some(best) = bests.get((case.to as usize).saturating_sub(1)) {
        let cost = Cost(best.cost);
        print!(rt; " | best {cost}")?;
    }
    Ok(())
}

// Prints the messages that wait.
fn show_waiting<L: Link<Message<Minutes>>>(
    rt: &HostRuntime,
    link: &mut L,
    mut place: Message<Minutes>,
) -> anyhow::Result<()> {
    let mut mark = " |";
    let count = link.waiting();
    if count == 0 {
        print!(rt; "{mark} -")?;
    }
    for _ in 0..count {
        link.take(&mut place)?;
        let words = Words(&place);
        print!(rt; "{mark} {words}")?;
        mark = ",";
    }
    println!(rt; "")?;
    Ok(())
}
