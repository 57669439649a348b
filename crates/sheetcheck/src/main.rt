// Reads a sheet from standard input and says what it holds; with a setup for each head as arguments, also what that plan costs.
#![tactic(auto)]

mod arguments;
mod counted;
mod failure;
mod listing;
mod prices;
mod refused;

use arguments::plan_of;
use failure::Failure;
use listing::Listing;
use prices::Prices;
use problem::place::PLACES;
use refused::Refused;
use scale::clashes::Clashes;
use scale::minutes::Minutes;
use scale::scale::Scale;
use sheet::opening::{ScaleName, scale_named};
use sheet::read::{MOST_BYTES, read};
use std::io::Read;
use std::process::ExitCode;
use std::{env, fmt, io};

// One byte more than a sheet may have, so that a longer one is seen to be too long.
const BYTES_READ: u64 = MOST_BYTES as u64 + 1;

fn main(rt: HostRuntime) -> io::Result<ExitCode> {
    match run(&rt) {
        Ok(code) => Ok(code),
        Err(failure) => {
            eprintln!(rt; "{failure}")?;
            Ok(ExitCode::FAILURE)
        }
    }
}

fn run(rt: &HostRuntime) -> Result<ExitCode, Failure> {
    let heap = rt.alloc();
    let mut bytes = Vec::new(heap);
    rt.stdin().take(BYTES_READ).read_to_end(&mut bytes)?;
    let arguments: Vec<String> = env::args(rt)?.skip(1).collect(heap)?;
    let (sheet, words) = (bytes.as_slice(), arguments.as_slice());
    // a match, since no closure is generic in a type
    match scale_named(sheet) {
        ScaleName::Minutes => answer::<Minutes>(rt, ScaleName::Minutes, sheet, words),
        ScaleName::Clashes => answer::<Clashes>(rt, ScaleName::Clashes, sheet, words),
    }
}

// Lists the sheet and, where there are words, what the plan that they name costs; or says what is wrong with the sheet or the words.
fn answer<S: Scale + Clone + fmt::Display>(
    rt: &HostRuntime,
    scale: ScaleName,
    sheet: &[u8],
    words: &[String],
) -> Result<ExitCode, Failure> {
    let heap = rt.alloc();
    let mut costs: Vec<S> = vec![in heap; S::nothing(); PLACES]?;
    // a match, and one below, since what is refused is told here, each on a stream of its own
    let contents = match read(sheet, costs.as_mut_slice()) {
        Ok(contents) => contents,
        Err(refusal) => {
            rt.print(Refused(refusal))?;
            return Ok(ExitCode::FAILURE);
        }
    };
    rt.print(Listing {
        scale,
        contents: &contents,
    })?;
    if words.is_empty() {
        return Ok(ExitCode::SUCCESS);
    }
    match plan_of(&contents.job, words) {
        Ok(plan) => {
            rt.print(Prices::new(heap, &contents.job, costs.as_slice(), plan)?)?;
            Ok(ExitCode::SUCCESS)
        }
        Err(complaint) => {
            eprintln!(rt; "{complaint}")?;
            Ok(ExitCode::FAILURE)
        }
    }
}
