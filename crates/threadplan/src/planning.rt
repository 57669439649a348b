// From a sheet to the lines that answer it.
use answer::refusal::refusal_line;
use answer::write::write;
use head::best::Best;
use head::memory::{BESTS, Memory, RECORDS};
use head::record::Record;
use job::declined::Declined;
use job::refusal::Refusal;
use link::first_in::FirstIn;
use link::message::Message;
use link::picker::Lowest;
use problem::place::PLACES;
use problem::price::Problem;
use run::run::solve::solve;
use scale::scale::Scale;
use sheet::breach::SheetRefusal;
use sheet::read::read;
use std::alloc::{AllocError, Global};

// how many messages can wait in the link
const LIMIT: usize = 64;

// Why a sheet gets the line of a refusal: the refusal, and the line of the sheet that it is about. A refusal about no line has line 0,
// which is what is written then.
#[derive(Clone, Copy)]
struct Refused {
    refusal: Refusal,
    line: u16,
}

impl From<Refusal> for Refused {
    fn from(refusal: Refusal) -> Refused {
        Refused { refusal, line: 0 }
    }
}

impl From<SheetRefusal> for Refused {
    fn from(broken: SheetRefusal) -> Refused {
        Refused {
            refusal: broken.breach.refusal(),
            line: broken.line,
        }
    }
}

impl<T: Drop> From<Declined<T>> for Refused {
    fn from(declined: Declined<T>) -> Refused {
        Refused::from(declined.refusal)
    }
}

// Reads the sheet, solves its job over a first-in link with the lowest picker, and writes the answer; answers its length.
fn answer<S: Scale>(
    sheet: &[u8],
    costs: &mut [S],
    places: &mut [Message<S>],
    memory: &mut Memory<S>,
    out: &mut [u8],
) -> Result<usize, Refused> {
    let contents = read(sheet, costs)?;
    let problem = Problem {
        job: &contents.job,
        costs,
    };
    let ended = solve(&problem, &mut FirstIn::new(places), &mut Lowest {}, memory)?;
    Ok(write(ended, out)?)
}

// The answer to a sheet, or the line of its refusal, at the front of `out`; answers how long it is.
pub(crate) fn plan<S: Scale + Clone>(
    heap: Global,
    sheet: &[u8],
    out: &mut [u8; 64],
) -> Result<usize, AllocError> {
    let mut costs: Vec<S> = vec![in heap; S::nothing(); PLACES]?;
    let mut places: Vec<Message<S>> = vec![in heap; Message::blank(); LIMIT]?;
    let mut records: Vec<Record<S>> = vec![in heap; Record::resting(); RECORDS]?;
    let mut bests: Vec<Best<S>> = vec![in heap; Best::none(); BESTS]?;
    let mut memory = Memory {
        records: records.as_mut_slice(),
        bests: bests.as_mut_slice(),
    };
    let answered = answer(
        sheet,
        costs.as_mut_slice(),
        places.as_mut_slice(),
        &mut memory,
        out,
    );
    // a match, since an answer is written already and a refusal not yet
    let line = match answered {
        Ok(length) => return Ok(length),
        Err(Refused { refusal, line }) => refusal_line(refusal, line),
    };
    out[..line.len()].copy_from_slice(&line);
    Ok(line.len())
}
