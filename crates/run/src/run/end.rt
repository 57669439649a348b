// Ending a run.
ghost use Rattle.job.specs.Plans.{is_complete};
ghost use Rattle.head.specs.Lent.{lent, lent_by};
ghost use Rattle.run.specs.Worlds.{at};
ghost use Rattle.run.specs.Ending.{Tells, EndsWith};
ghost use Rattle.run.specs.Promises.{EndPromise};

use super::packing::packed;
use super::{Ended, Found, Run};
use head::best::Best;
use head::memory::Memory;
use head::receive::is_enough;
use head::record::Record;
use job::declined::Declined;
use job::job::Job;
use job::refusal::Refusal;
use link::link::Link;
use link::message::Message;
use problem::price::Problem;
use scale::scale::Scale;

// A complete best plan packed with its cost, or no plan.
fn outcome_of<S: Scale>(job: &Job, best: &Best<S>) -> Option<Found<S>>
    ensures { Tells S.Scale.scale best.now (is_complete job.now best.now.plan) result }
{
    if job.is_complete(&best.plan) {
        Some(Found {
            packed: packed(&best.plan),
            cost: best.cost,
        })
    } else {
        None
    }
}

impl Run {
    // Ends the run where the memory suffices: `best` is head 1's.
    fn end_with<S: Scale, L: Link<Message<S>>>(
        self,
        job: &Job,
        link: &L,
        best: &Best<S>,
    ) -> Result<Ended<S>, Declined<Run>>
        ensures { EndsWith S.Scale.scale job.now best.now self (L.Link.bag link.now) result }
    {
        if self.out > 0 || link.waiting() > 0 {
            return Err(Declined {
                back: self,
                refusal: Refusal::StillOut,
            });
        }
        let Run { out: _, count } = self;
        Ok(Ended {
            heads: job.heads(),
            count,
            outcome: outcome_of(job, best),
        })
    }

    // Ends a run in which no search is out and no message waits; what it came to is head 1's best. Refused with 7 for too little
    // memory, then with 14; the run comes back then. Nothing that is lent moves.
    pub fn end<S: Scale, L: Link<Message<S>>>(
        self,
        problem: &Problem<S>,
        link: &L,
        memory: &Memory<S>,
    ) -> Result<Ended<S>, Declined<Run>>
        ensures { EndPromise S.Scale.scale (at (lent_by problem.now memory.now (L.Link.limit link.now) (L.Link.bag link.now)) self) result }
    {
        if !memory.is_enough(problem) {
            return Err(Declined {
                back: self,
                refusal: Refusal::TooLittle,
            });
        }
        let best = memory.bests[0];
        self.end_with(problem.job, link, &best)
    }

    // The same of records and bests that are lent for reading only.
    pub fn end_reading<S: Scale, L: Link<Message<S>>>(
        self,
        problem: &Problem<S>,
        link: &L,
        records: &[Record<S>],
        bests: &[Best<S>],
    ) -> Result<Ended<S>, Declined<Run>>
        ensures { EndPromise S.Scale.scale (at (lent problem.now.job.now problem.now.costs.now records.now bests.now (L.Link.limit link.now) (L.Link.bag link.now)) self) result }
    {
        if !is_enough(problem.costs, records, bests) {
            return Err(Declined {
                back: self,
                refusal: Refusal::TooLittle,
            });
        }
        self.end_with(problem.job, link, &bests[0])
    }

    // The one way to let a run go unended.
    pub fn give_up(self) {
        let Run { out: _, count: _ } = self;
    }
}
