// Sends the same twelve messages over a first-in and over a last-in link, prints them as they come out, and forwards a message over
// each.
#![tactic(auto)]

mod fill;
mod forward;
mod show;
mod twelve;
mod words;

use link::first_in::FirstIn;
use link::last_in::LastIn;
use link::message::Message;
use link::picker::{Highest, Lowest};
use scale::minutes::Minutes;
use show::{carry, pass_on, refusals};
use std::process::ExitCode;
use twelve::twelve;

// Over a first-in link, and over a last-in one.
fn orders(
    rt: &HostRuntime,
    places: &mut [Message<Minutes>],
    messages: &[Message<Minutes>],
) -> anyhow::Result<()> {
    println!(rt; "Out of a first-in link come")?;
    carry(rt, &mut FirstIn::new(places), messages)?;
    println!(rt; "Out of a last-in link come")?;
    carry(rt, &mut LastIn::new(places), messages)
}

// Over each link with each picker.
fn forwards(
    rt: &HostRuntime,
    places: &mut [Message<Minutes>],
    messages: &[Message<Minutes>],
) -> anyhow::Result<()> {
    println!(rt; "Forwarded at 5 minutes more, to one of the heads 2, 5 and 7:")?;
    pass_on(
        rt,
        "first in, lowest head",
        &mut FirstIn::new(places),
        &mut Lowest {},
        messages,
    )?;
    pass_on(
        rt,
        "first in, highest head",
        &mut FirstIn::new(places),
        &mut Highest {},
        messages,
    )?;
    pass_on(
        rt,
        "last in, lowest head",
        &mut LastIn::new(places),
        &mut Lowest {},
        messages,
    )?;
    pass_on(
        rt,
        "last in, highest head",
        &mut LastIn::new(places),
        &mut Highest {},
        messages,
    )
}

fn run(rt: &HostRuntime) -> anyhow::Result<()> {
    let messages = twelve();
    let mut places = messages;
    orders(rt, &mut places, &messages)?;
    forwards(rt, &mut places, &messages)?;
    refusals(rt, &mut FirstIn::new(&mut places), &messages)
}

// A failure ends the program with status 1 and prints nothing; an error that `main` answers would be printed.
fn main(rt: HostRuntime) -> ExitCode {
    match run(&rt) {
        Ok(()) => ExitCode::SUCCESS,
        Err(_) => ExitCode::FAILURE,
    }
}
