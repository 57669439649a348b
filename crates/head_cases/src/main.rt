// Gives a head one message at a time, and prints what receiving it answers, the state of the head's record after it, what the
// head's best then costs, and the messages that then wait, each with its sender, receiver and cost.
#![tactic(auto)]

mod answers;
mod case;
mod plans;
mod run;
mod start;
mod strays;
mod words;

use answers::ANSWERS;
use case::{Case, NOTICE, PLAN, REPORT, REQUEST, RETURN, STOP};
use head::record::State;
use job::job::Job;
use plans::PLANS;
use problem::place::PLACES;
use problem::price::Problem;
use run::run;
use scale::minutes::Minutes;
use scale::scale::Scale;
use start::lay_out;
use std::process::ExitCode;
use strays::STRAYS;

const STATES: [State; 3] = [State::Resting, State::Gathering, State::Below];

const KINDS: [Case; 6] = [REQUEST, REPORT, PLAN, RETURN, NOTICE, STOP];

fn each_state_and_kind(rt: &HostRuntime, problem: &Problem<Minutes>) -> anyhow::Result<()> {
    println!(rt; "Each state of the record, each kind of message:")?;
    for state in STATES {
        for case in KINDS {
            run(rt, problem, &Case { state, ..case })?;
        }
    }
    Ok(())
}

fn each_of(
    rt: &HostRuntime,
    title: &str,
    problem: &Problem<Minutes>,
    cases: &[Case],
) -> anyhow::Result<()> {
    println!(rt; "{title}:")?;
    for case in cases {
        run(rt, problem, case)?;
    }
    Ok(())
}

fn all(rt: &HostRuntime) -> anyhow::Result<()> {
    let job = Job::new(&[2, 2, 2])?;
    let mut costs = [Minutes::nothing(); PLACES];
    lay_out(&mut costs);
    let problem = Problem {
        job: &job,
        costs: &costs,
    };
    each_state_and_kind(rt, &problem)?;
    each_of(rt, "Stray messages", &problem, &STRAYS)?;
    each_of(rt, "Requests and reports", &problem, &ANSWERS)?;
    each_of(rt, "Plans, returns, notices and stops", &problem, &PLANS)
}

// A failure ends the program with status 1 and prints nothing; an error that `main` answers would be printed.
fn main(rt: HostRuntime) -> ExitCode {
    match all(&rt) {
        Ok(()) => ExitCode::SUCCESS,
        Err(_) => ExitCode::FAILURE,
    }
}
