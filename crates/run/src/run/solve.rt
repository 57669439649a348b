// A whole run in one call.
ghost use Rattle.head.specs.Lent.{lent_by, SamePlaces};
ghost use Rattle.run.specs.Promises.{Solves};

use super::{Ended, Run};
use head::memory::Memory;
use job::declined::Declined;
use job::refusal::Refusal;
use link::link::Link;
use link::message::Message;
use link::picker::Picker;
use problem::price::Problem;
use scale::scale::Scale;

// Starts a run, delivers until no message waits, and ends it. Refused only as the start is.
pub fn solve<S: Scale, L: Link<Message<S>>, P: Picker>(
    problem: &Problem<S>,
    link: &mut L,
    picker: &mut P,
    memory: &mut Memory<S>,
) -> Result<Ended<S>, Refusal>
    ensures solves { Solves S.Scale.scale (lent_by problem.now memory.old (L.Link.limit link.old) (L.Link.bag link.old)) result (lent_by problem.now memory.new (L.Link.limit link.new) (L.Link.bag link.new)) }
    ensures places { SamePlaces memory.old memory.new }
{
    let mut run = Run::start(problem, link, memory)?;
    while link.waiting() > 0 {
        let _ = run.deliver(problem, link, picker, memory);
    }
    // a match: in `map_err` the proof did not close
    match run.end(problem, link, memory) {
        Ok(ended) => Ok(ended),
        Err(Declined { back, refusal }) => {
            back.give_up();
            Err(refusal)
        }
    }
}
