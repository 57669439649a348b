// Writing what a run came to.
ghost use Rattle.std.specs.Prelude.{◌≡◌, Some, ◌+◌, ◌≤◌, ◌∷◌, length};
ghost use Rattle.answer.specs.Hex.{line};
ghost use Rattle.answer.specs.Cursors.{Puts};
ghost use Rattle.answer.specs.Lines.{eight_bytes, outcome_bytes, Writes};

use crate::hex::Lines;
use job::declined::Declined;
use job::refusal::Refusal;
use run::run::packing::setups;
use run::run::{Ended, Found};
use scale::scale::Scale;

// what a line begins with: that it tells a plan, that there is none, or the count
const PLAN: u8 = 5;

const NO_PLAN: u8 = 6;

const COUNT: u8 = 7;

// the most bytes of the two lines, and some to spare
const ROOM: usize = 64;

// Writes the line of a plan and its cost.
fn put_found<S: Scale>(lines: &mut Lines<'_>, heads: u8, found: Found<S>)
    requires { lines.old.end + 33 ≤ length lines.old.out.now }
    ensures { Puts lines.old (line (outcome_bytes S.Scale.coding heads (Some found))) lines.new }
{
    lines.put_bytes(&[PLAN, heads]);
    lines.put_bytes(&setups(found.packed)[..(heads as usize).min(8)]);
    let mut bytes = [0; 6];
    let _ = found.cost.write(&mut bytes);
    lines.put_bytes(&bytes[..S::WIDTH]);
    lines.end_line();
}

// Writes the line of an outcome.
fn put_outcome<S: Scale>(lines: &mut Lines<'_>, heads: u8, outcome: Option<Found<S>>)
    requires { lines.old.end + 33 ≤ length lines.old.out.now }
    ensures { Puts lines.old (line (outcome_bytes S.Scale.coding heads outcome)) lines.new }
{
    match outcome {
        Some(found) => put_found(lines, heads, found),
        None => {
            lines.put_bytes(&[NO_PLAN]);
            lines.end_line();
        }
    }
}

// Writes the line of a count.
fn put_count(lines: &mut Lines<'_>, count: u64)
    requires { lines.old.end + 19 ≤ length lines.old.out.now }
    ensures { Puts lines.old (line (7 ∷ eight_bytes count)) lines.new }
{
    lines.put_bytes(&[COUNT]);
    lines.put_bytes(&count.to_be_bytes());
    lines.end_line();
}

// Writes the two lines of an ended run, which is used up, to the front of `out`, and answers their length. Refused with 7 for fewer
// than 64 bytes; the ended run comes back then.
pub fn write<S: Scale>(ended: Ended<S>, out: &mut [u8]) -> Result<usize, Declined<Ended<S>>>
    ensures { Writes S.Scale.coding ended out.old result out.new }
{
    if out.len() < ROOM {
        return Err(Declined {
            back: ended,
            refusal: Refusal::TooLittle,
        });
    }
    let mut lines = Lines::new(out);
    put_outcome(&mut lines, ended.heads(), ended.outcome());
    put_count(&mut lines, ended.count());
    Ok(lines.end())
}
