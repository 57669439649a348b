// What the program shows of a link, for any link.
ghost use Rattle.std.specs.Prelude.{◌≡◌};
ghost use Rattle.linkdemo.specs.Filling.{refused_with};

use crate::fill::fill;
use crate::forward::forward;
use crate::twelve::message;
use crate::words::Words;
use anyhow::bail;
use job::refusal::Refusal;
use link::heads::HeadSet;
use link::link::Link;
use link::message::{Kind, Message};
use link::picker::Picker;
use scale::minutes::Minutes;
use scale::scale::Scale;

// Fills the link, and prints the messages as they come out.
pub(crate) fn carry<L: Link<Message<Minutes>>>(
    rt: &HostRuntime,
    link: &mut L,
    messages: &[Message<Minutes>],
) -> anyhow::Result<()> {
    fill(link, messages)?;
    let mut place = message(Kind::Stop, 0, 0, 0);
    // the number is only printed: the messages come out in an order of the link's own
    for number in 1..=messages.len() {
        link.take(&mut place)?;
        let words = Words(place);
        println!(rt; "{number:>4}. {words}")?;
    }
    Ok(())
}

// Fills the link, forwards a message, and prints that message as it waits then.
pub(crate) fn pass_on<L: Link<Message<Minutes>>, P: Picker>(
    rt: &HostRuntime,
    label: &str,
    link: &mut L,
    picker: &mut P,
    messages: &[Message<Minutes>],
) -> anyhow::Result<()> {
    fill(link, messages)?;
    let heads = HeadSet::empty().with(2).with(5).with(7);
    let mut place = message(Kind::Stop, 0, 0, 5);
    let surcharge = place.cost;
    forward(link, picker, heads, surcharge, &mut place)?;
    let words = Words(place);
    println!(rt; "  {label}: {words}")?;
    Ok(())
}

// Prints what a link that is empty refuses, and then one that is full.
pub(crate) fn refusals<L: Link<Message<Minutes>>>(
    rt: &HostRuntime,
    link: &mut L,
    messages: &[Message<Minutes>],
) -> anyhow::Result<()> {
    let mut place = message(Kind::Stop, 0, 0, 0);
    let empty = number_of(link.take(&mut place));
    fill(link, messages)?;
    let full = number_of(link.post(place));
    let (Some(empty), Some(full)) = (empty, full) else {
        bail!("an empty link gave a message, or a full one took one");
    };
    println!(rt;
        "A take where none waits is refused with {empty}, a post to a full link with {full}."
    )?;
    Ok(())
}

// The number of the refusal, if there is one.
fn number_of(answer: Result<(), Refusal>) -> Option<u8>
    ensures { result ≡ refused_with answer }
{
    answer.err().map(Refusal::number)
}
