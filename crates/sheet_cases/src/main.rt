// Reads a table of sheets from standard input, one a line, and says of each whether reading it answers what the table says.
//
// A line is a name, what is expected, and the sheet, with a space between. In a sheet `/` stands for the byte 0A, `~` for 0D, and
// (3*0A) for 0A0A0A. Expected is `ok` with the setups by head and the pairs that have a table, as ok:2,2:1-2; or a refusal's number
// and line, as 4@2, for a bad entry with its row and column, as 6@4:0,1. A line that begins with # is a comment.
#![tactic(auto)]

mod cases;
mod expand;

use anyhow::Context;
use cases::answered;
use expand::expanded;
use std::io;
use std::io::{BufRead, BufReader};

const NO_CASE: &str = "a case is a name, what is expected, and a sheet";

fn complain(rt: &HostRuntime, name: &str, answer: &str, expected: &str) -> io::Result<()> {
    println!(rt; "{name}: {answer}, but expected is {expected}")
}

fn compared(rt: &HostRuntime, name: &str, expected: &str, text: &str) -> anyhow::Result<bool> {
    let sheet = expanded(rt.alloc(), text)?;
    let answer = answered(rt.alloc(), sheet.as_slice())?;
    if answer.as_str() == expected {
        println!(rt; "{name}: {answer}")?;
        return Ok(true);
    }
    complain(rt, name, answer.as_str(), expected)?;
    Ok(false)
}

fn judged(rt: &HostRuntime, case: &str) -> anyhow::Result<bool> {
    let (name, rest) = case.split_once(' ').context(NO_CASE)?;
    let (expected, text) = rest.split_once(' ').context(NO_CASE)?;
    compared(rt, name, expected, text)
}

fn run(rt: &HostRuntime) -> anyhow::Result<()> {
    let mut right = 0u32;
    let mut wrong = 0u32;
    for line in BufReader::new(rt.alloc(), rt.stdin())?.lines(rt.alloc()) {
        let case = line?;
        if case.is_empty() || case.starts_with('#') {
            continue;
        }
        if judged(rt, case.as_str())? {
            right = right.saturating_add(1);
        } else {
            wrong = wrong.saturating_add(1);
        }
    }
    println!(rt; "{right} as expected, {wrong} not")?;
    Ok(())
}

fn main(rt: HostRuntime) -> anyhow::Result<()> {
    run(&rt)
}
