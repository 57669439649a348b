// Starting a run.
ghost use Rattle.std.specs.Prelude.{◌≡◌};
ghost use Rattle.head.specs.SetupSets.{only_setup};
ghost use Rattle.head.specs.Lent.{lent_by, SamePlaces};
ghost use Rattle.run.specs.Beginning.{sent_out, ReadyToBegin, HasBegun};
ghost use Rattle.run.specs.Promises.{StartPromise};

use super::Run;
use super::searches_out::{all_out, come_home};
use super::stopping::stop_others;
use head::best::Best;
use head::memory::{BESTS, Memory, RECORDS, ROW};
use head::record::Record;
use head::search::search_on;
use head::seat::Seat;
use head::setups::SetupSet;
use job::refusal::Refusal;
use link::link::Link;
use link::message::Message;
use link::sending::MARGIN;
use problem::place::fill;
use problem::price::{Prices, Problem};
use scale::scale::Scale;

// What head 1 is sent in a search at the start: the empty plan, by nobody, with one setup to try.
fn sent_out<S: Scale>(search: u8) -> Record<S>
    ensures { result ≡ sent_out S.Scale.scale search }
{
    Record {
        untried: SetupSet::only(search),
        ..Record::resting()
    }
}

// Head 1 searches on in each search, in turn, and its row of records is then as that leaves it. Once none is out, the stops go to
// the other heads. Answers which searches are out.
fn begin<S: Scale, L: Link<Message<S>>>(
    prices: &Prices<S>,
    link: &mut L,
    row: &mut [Record<S>],
    best: &mut Best<S>,
) -> u8
    requires { ReadyToBegin S.Scale.scale row.old }
    ensures { HasBegun S.Scale.scale prices.now.job.now prices.now.costs.now best.old (L.Link.limit link.old) (L.Link.bag link.old) result row.new best.new (L.Link.limit link.new) (L.Link.bag link.new) }
{
    let count = prices.job.setups(1);
    let mut out = all_out(count);
    // by number, since the head acts in the search of that number and keeps its record in that place of its row
    for v in 0..count {
        let seat = Seat { head: 1, search: v };
        let turn = search_on(prices, link, seat, &sent_out(v), best);
        row[v as usize] = turn.known;
        if turn.home {
            out = come_home(out, v);
        }
    }
    if out == 0 {
        let _ = stop_others(prices.job, link, best);
    }
    out
}

impl Run {
    // Starts a run over lent memory and an empty link. Refused with 7 for too little memory, with 8 for a limit below 56, and with
    // 9 where a message waits; nothing moves then.
    pub fn start<S: Scale, L: Link<Message<S>>>(
        problem: &Problem<S>,
        link: &mut L,
        memory: &mut Memory<S>,
    ) -> Result<Run, Refusal>
        ensures starts { StartPromise S.Scale.scale (lent_by problem.now memory.old (L.Link.limit link.old) (L.Link.bag link.old)) result (lent_by problem.now memory.new (L.Link.limit link.new) (L.Link.bag link.new)) }
        ensures places { SamePlaces memory.old memory.new }
    {
        if !memory.is_enough(problem) {
            return Err(Refusal::TooLittle);
        }
        if link.limit() < MARGIN {
            return Err(Refusal::LimitTooLow);
        }
        if link.waiting() > 0 {
            return Err(Refusal::MessageWaits);
        }
        let prices = problem.prices()?;
        fill(&mut memory.bests[0..BESTS], Best::none());
        fill(&mut memory.records[0..RECORDS], Record::resting());
        // a best of its own, since the row is lent out of the memory while the head acts
        let mut best = Best::none();
        let out = begin(&prices, link, &mut memory.records[0..ROW], &mut best);
        memory.bests[0] = best;
        Ok(Run { out, count: 0 })
    }
}
