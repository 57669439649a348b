// Reading a sheet.
ghost use Rattle.std.specs.Prelude.{◌≡◌, ◌≤◌, Ok, length, replicate};
ghost use Rattle.sheet.specs.Judgements.{Judged, LaysOut};
ghost use Rattle.sheet.specs.Lines.{lines};
ghost use Rattle.sheet.specs.Openings.{has_table_for};
ghost use Rattle.sheet.specs.Fillings.{lines_filled};
ghost use Rattle.sheet.specs.Sheets.{sheet_read, Reads};

use crate::breach::{Breach, SheetRefusal};
use crate::line::Lines;
use crate::progress::Progress;
use job::job::Job;
use problem::place::{PLACES, fill, pair};
use scale::scale::Scale;

// the most bytes of a sheet
pub const MOST_BYTES: usize = 24_000;

// What a sheet says, but for its costs: the job, and which pairs have a table, by the pair's number, in an array since no
// library here has a heap.
#[derive(Clone, Copy)]
pub struct Contents {
    pub job: Job,
    pub tables: [bool; 28],
}

impl Contents {
    // Whether the sheet had a table for the heads a and b; it had none where they are no pair of heads a < b.
    pub fn has_table(&self, a: u8, b: u8) -> bool
        ensures { result ≡ has_table_for self.now a b }
    {
        // a match, since in `is_some_and` the bound of the place is not found at the closure
        match pair(a, b) {
            Some(p) => self.tables[p],
            None => false,
        }
    }
}

// What is known at the end of a sheet whose lines keep all rules, or the first line that does not.
fn judged<S: Scale>(sheet: &[u8]) -> Result<Progress, SheetRefusal>
    requires { length sheet.now ≤ 24000 }
    ensures { result ≡ sheet_read S.Scale.coding sheet.now }
{
    let mut progress = Progress::start();
    // counted here, since the number of the line that is due is asked after the last line too, where that of `enumerate` is gone
    let mut number = 1;
    for line in Lines::of(sheet) {
        progress = progress
            .after_line::<S>(line)
            .map_err(|breach| breach.at_line(number))?;
        number += 1;
    }
    if progress.has_ended() {
        Ok(progress)
    } else {
        Err(Breach::NotDue.at_line(number))
    }
}

// Lays the tables of a sheet out in `costs`, with what is known at its end.
fn lay_out<S: Scale>(sheet: &[u8], progress: &Progress, costs: &mut [S])
    requires { 1792 ≤ length costs.old }
    ensures { costs.new ≡ lines_filled S.Scale.coding progress.now (lines sheet.now) costs.old }
{
    for line in Lines::of(sheet) {
        if let Some(table) = progress.table_in(line) {
            table.lay(costs);
        }
    }
}

// Reads a sheet and lays its costs out, each in its place and nothing where no table has an entry.
fn read_exactly<S: Scale>(sheet: &[u8], costs: &mut [S]) -> Result<Contents, SheetRefusal>
    ensures { Reads S.Scale.scale S.Scale.coding sheet.now costs.old result costs.new }
{
    if costs.len() < PLACES {
        return Err(Breach::TooLittle.at_line(0));
    }
    if sheet.len() > MOST_BYTES {
        return Err(Breach::TooLong.at_line(0));
    }
    // a first pass finds every refusal, so that a refused sheet leaves all costs as they were
    let progress = judged::<S>(sheet)?;
    let places = &mut costs[..PLACES];
    fill(places, S::nothing());
    lay_out(sheet, &progress, places);
    Ok(progress.told())
}

// Reads a sheet into `costs`: each entry goes to its place, and nothing to every other of the 1,792 places; what lies past them
// stays. Refused are fewer than 1,792 places and more than 24,000 bytes, both at line 0, and then the first line that breaks a
// rule, by the first rule that it breaks; a refusal leaves all costs as they were.
pub fn read<S: Scale>(sheet: &[u8], costs: &mut [S]) -> Result<Contents, SheetRefusal>
    ensures exact { Reads S.Scale.scale S.Scale.coding sheet.now costs.old result costs.new }
    ensures judged { Judged S.Scale.coding sheet.now (length costs.old) result }
    ensures laid { LaysOut S.Scale.scale S.Scale.coding sheet.now costs.old result costs.new }
{
    read_exactly(sheet, costs)
}
