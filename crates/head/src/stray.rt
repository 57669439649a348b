// Which messages are stray.
ghost use Rattle.std.specs.Prelude.{◌≡◌};
ghost use Rattle.head.specs.Strays.{is_addressed as addressed_in, untried_fit, heard_fit, sender_fits as sender_in, is_in_range as in_range, is_sound as sound_record, is_bests, awaited, due};

use crate::record::{Record, State};
use crate::setups::SetupSet;
use job::job::Job;
use job::plan::Plan;
use link::heads::HeadSet;
use link::message::{Kind, Message};
use scale::scale::Scale;

// Whether the message is from one head of the job to another, about one of its searches, with a plan of the job.
pub(crate) fn is_addressed<S: Scale>(job: &Job, message: &Message<S>) -> bool
    ensures { result ≡ addressed_in job.now message.now }
{
    job.setups(message.to) >= 1
        && job.setups(message.from) >= 1
        && message.to != message.from
        && message.search < job.setups(1)
        && job.admits(&message.plan)
}

// Whether all setups that are left are setups of the head.
fn has_own_setups(job: &Job, head: u8, untried: &SetupSet) -> bool
    ensures { result ≡ untried_fit job.now head untried.now }
{
    (0..8u8).all(|i| !untried.has(i) || i < job.setups(head))
}

// Whether all heads that were heard are heads of the job.
fn has_own_heads(job: &Job, heard: &HeadSet) -> bool
    ensures { result ≡ heard_fit job.now heard.now }
{
    (1..9u8).all(|h| !heard.has(h) || job.setups(h) >= 1)
}

// Whether the sender is another head of the job; at head 1 it may also be nobody, 0: heads are bytes in records as in messages, and 0 is
// no head.
fn sender_fits(job: &Job, head: u8, sender: u8) -> bool
    ensures { result ≡ sender_in job.now head sender }
{
    (job.setups(sender) >= 1 && sender != head) || (head == 1 && sender == 0)
}

// Whether a record's numbers are in the ranges of the job, and its received plan does not name the head.
fn is_in_range<S: Scale>(job: &Job, head: u8, known: &Record<S>) -> bool
    ensures { result ≡ in_range job.now head known.now }
{
    job.admits(&known.received)
        && !known.received.names(head)
        && known.setup < job.setups(head)
        && has_own_setups(job, head, &known.untried)
        && has_own_heads(job, &known.heard)
        && sender_fits(job, head, known.sender)
}

// Whether a record rests or is in range.
pub(crate) fn is_sound<S: Scale>(job: &Job, head: u8, known: &Record<S>) -> bool
    ensures { result ≡ sound_record job.now head known.now }
{
    known.state == State::Resting || is_in_range(job, head, known)
}

// Whether a plan may stand in a best: it is complete or empty.
fn may_be_best(job: &Job, plan: &Plan) -> bool
    ensures { result ≡ is_bests job.now plan.now }
{
    job.is_complete(plan) || plan.is_empty()
}

// Whether a report is one that the record waits for: from a head that the plan on trial does not name, and that was not heard yet.
fn awaits_report<S: Scale>(known: &Record<S>, message: &Message<S>) -> bool
    ensures { result ≡ awaited known.now message.now }
{
    !known
        .received
        .name(message.to, known.setup)
        .names(message.from)
        && !known.heard.has(message.from)
}

// What a message of each kind needs besides a record in the right state; `out` tells whether its search is out.
pub(crate) fn is_due<S: Scale>(
    job: &Job,
    out: bool,
    known: &Record<S>,
    message: &Message<S>,
) -> bool
    ensures { result ≡ due job.now message.now.kind out known.now message.now }
{
    match message.kind {
        Kind::Request => !message.plan.names(message.to),
        Kind::Report => out && awaits_report(known, message),
        Kind::Plan => message.to != 1 && !message.plan.names(message.to),
        Kind::Return => out && may_be_best(job, &message.plan),
        Kind::Notice => job.is_complete(&message.plan),
        Kind::Stop => message.to != 1 && may_be_best(job, &message.plan),
    }
}
