// Delivering a message.
ghost use Rattle.std.specs.Prelude.{◌≡◌, ◌<◌, if◌then◌else◌, Ok, Err, ◌==◌};
ghost use Rattle.job.specs.declared.refusal.Refusal.TheVariants.{LinkFull as Full};
ghost use Rattle.job.specs.Refusals.{number};
ghost use Rattle.head.specs.Lent.{lent_by, SamePlaces};
ghost use Rattle.run.specs.Worlds.{at};
ghost use Rattle.run.specs.Delivering.{ComesHome};
ghost use Rattle.run.specs.Promises.{DeliverPromise};

use super::Run;
use super::searches_out::come_home;
use super::stopping::stop_others;
use head::best::Best;
use head::memory::Memory;
use head::owed::post_report;
use head::receive::{Received, receive};
use job::job::Job;
use job::refusal::Refusal;
use link::link::Link;
use link::message::{Kind, Message};
use link::picker::Picker;
use problem::price::Problem;
use scale::scale::Scale;

// Whether a refusal is that of a stray message. A function of its own: written in its place, what is asked there of the number 13 was
// not found.
fn is_stray(refusal: Refusal) -> bool
    ensures { result ≡ (number refusal == 13) }
{
    refusal == Refusal::Stray
}

// The kind of the message, or the refusal where a message that was sent is lost.
fn told(kind: Kind, lost: bool) -> Result<Kind, Refusal>
    ensures { result ≡ (if lost then Err Full else Ok kind) }
{
    if lost {
        return Err(Refusal::LinkFull);
    }
    Ok(kind)
}

impl Run {
    // A search comes home; when it was the last, head 1 stops the other heads. Answers whether a stop was lost.
    fn bring_home<S: Scale, L: Link<Message<S>>>(
        &mut self,
        job: &Job,
        link: &mut L,
        search: u8,
        best: &Best<S>,
    ) -> bool
        requires { search < 8 }
        ensures { ComesHome self.old search job.now best.now (L.Link.limit link.old) (L.Link.bag link.old) result self.new (L.Link.limit link.new) (L.Link.bag link.new) }
    {
        self.out = come_home(self.out, search);
        if self.out == 0 {
            return stop_others(job, link, best);
        }
        false
    }

    // Takes one message and lets its head act, or post the report that a request asks for; answers the kind of the message.
    // Refused with 7 for too little memory and with 11 where none waits, and nothing moves then; with 13 where the message is
    // stray, which is taken and counted; and with 10 where a message that was sent is lost, the rest being done all the same.
    pub fn deliver<S: Scale, L: Link<Message<S>>, P: Picker>(
        &mut self,
        problem: &Problem<S>,
        link: &mut L,
        picker: &mut P,
        memory: &mut Memory<S>,
    ) -> Result<Kind, Refusal>
        ensures delivers { DeliverPromise S.Scale.scale (at (lent_by problem.now memory.old (L.Link.limit link.old) (L.Link.bag link.old)) self.old) result (at (lent_by problem.now memory.new (L.Link.limit link.new) (L.Link.bag link.new)) self.new) }
        ensures places { SamePlaces memory.old memory.new }
    {
        let mut taken = Message::blank();
        let received = match receive(self.out, problem, link, picker, memory, &mut taken) {
            Ok(received) => received,
            Err(refusal) => {
                if is_stray(refusal) {
                    self.count = self.count.saturating_add(1);
                }
                return Err(refusal);
            }
        };
        self.count = self.count.saturating_add(1);
        match received {
            Received::Owes(owed) => told(Kind::Request, post_report(owed, problem, link).is_err()),
            Received::Done { kind, home, lost } => {
                let stop_lost = home
                    && self.bring_home(problem.job, link, taken.search, &memory.bests[0]);
                told(kind, lost | stop_lost)
            }
        }
    }
}
