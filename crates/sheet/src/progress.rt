// What has been read of a sheet, line after line: what is known after each, or the first rule that it breaks.
ghost use Rattle.std.specs.Prelude.{◌≡◌, true, IfSome};
ghost use Rattle.std.specs.Option.{option_map};
ghost use Rattle.sheet.specs.Frames.{said, opening as OpeningFrame, head as HeadFrame, table as TableFrame, frame_of};
ghost use Rattle.sheet.specs.Steps.{start, due, shape as table_shape, frame_read, step as step_read, line_read};
ghost use Rattle.sheet.specs.Fillings.{digits_in, shape_in};
ghost use Rattle.sheet.specs.Sheets.{is_ended, Tells};
ghost use Rattle.sheet.specs.declared.progress.Stage.TheVariants.{Start as AtStart, Heads as AtHeads, Tables as AtTables};

use crate::breach::Breach;
use crate::frame::{Frame, Kind};
use crate::read::Contents;
use crate::table::{Shape, Table};
use job::job::Job;
use problem::place::pair;
use scale::scale::Scale;
use std::marker::{Model, PhantomData};

#[derive(Clone, Copy, Debug, PartialEq, Eq)]
pub enum Stage {
    // nothing yet: the opening is due
    Start,
    // the opening: a line for each head is due
    Heads,
    // all heads: tables and the end are due
    Tables,
    Ended,
}

// Head h has `setups[h - 1]` setups, for the first `known` of the `heads` heads; `tables` tells which pairs have a table, by the
// pair's number. The numbers are always in range. The arrays are of fixed size since no library here has a heap.
#[derive(Clone, Copy)]
pub struct Progress {
    stage: Stage,
    heads: u8,
    known: u8,
    setups: [u8; 8],
    tables: [bool; 28],
}

impl Model for Progress {
    ghost use Rattle.sheet.specs.Known.{Known, Sound};

    ghost Value = { Known };

    ghost use Rattle.sheet.specs.Views.{known_of};

    ghost view = { known_of };

    ghost invariant = { λ s. Sound (known_of s) };

    ghost inverse = { λ k. record { stage = k.stage; heads = k.heads; known = k.known; setups = k.setups; tables = k.tables } };
}

impl Progress {
    // Nothing read yet.
    pub(crate) fn start() -> Progress
        ensures { result ≡ start }
    {
        Progress {
            stage: Stage::Start,
            heads: 0,
            known: 0,
            setups: [0; 8],
            tables: [false; 28],
        }
    }

    pub(crate) fn has_ended(&self) -> bool
        ensures { result ≡ is_ended self.now.stage }
    {
        self.stage == Stage::Ended
    }

    // Whether a frame of this kind is due.
    fn is_due(&self, kind: Option<Kind>) -> bool
        ensures { result ≡ due self.now.stage kind }
    {
        matches!(
            (self.stage, kind),
            (Stage::Start, Some(Kind::Opening))
                | (Stage::Heads, Some(Kind::Head))
                | (Stage::Tables, Some(Kind::Table | Kind::End))
        )
    }

    fn after_opening<S: Scale>(self, heads: u8, scale: u8) -> Result<Progress, Breach>
        requires { self.stage ≡ AtStart }
        ensures { result ≡ frame_read S.Scale.coding self (OpeningFrame heads scale) }
    {
        if heads < 1 || heads > 8 || scale != S::number() {
            return Err(Breach::BadNumber);
        }
        Ok(Progress {
            stage: Stage::Heads,
            heads,
            known: 0,
            ..self
        })
    }

    fn after_head<S: Scale>(self, head: u8, setups: u8) -> Result<Progress, Breach>
        requires { self.stage ≡ AtHeads }
        ensures { result ≡ frame_read S.Scale.coding self (HeadFrame head setups) }
    {
        let known = self.known + 1;
        if head != known || setups < 1 || setups > 8 {
            return Err(Breach::BadNumber);
        }
        let stage = if known < self.heads {
            Stage::Heads
        } else {
            Stage::Tables
        };
        let mut counts = self.setups;
        counts[self.known as usize] = setups;
        Ok(Progress {
            stage,
            known,
            setups: counts,
            ..self
        })
    }

    // The table of two heads with these digits; `None` if they are no ascending pair of the job or its digits are too few or too many.
    fn table<'a, S: Scale>(&self, first: u8, second: u8, digits: &'a [u8]) -> Option<Table<'a, S>>
        ensures shape { option_map (λ t. t.shape) result ≡ table_shape S.Scale.coding self.now first second digits.now }
        ensures digits { IfSome result (λ t. t.digits.now ≡ digits.now) }
    {
        let pair = pair(first, second)?;
        if second > self.heads {
            return None;
        }
        let rows = self.setups[first as usize - 1];
        let columns = self.setups[second as usize - 1];
        if digits.len() != 2 * S::WIDTH * (columns as usize * rows as usize) {
            return None;
        }
        Some(Table {
            shape: Shape {
                pair,
                rows,
                columns,
            },
            digits,
            scale: PhantomData,
        })
    }

    fn after_table<S: Scale>(self, first: u8, second: u8, digits: &[u8]) -> Result<Progress, Breach>
        requires { self.stage ≡ AtTables }
        ensures { result ≡ frame_read S.Scale.coding self (TableFrame first second digits.now) }
    {
        let table = self
            .table::<S>(first, second, digits)
            .ok_or(Breach::BadNumber)?;
        let mut tables = self.tables;
        if tables[table.shape.pair] {
            return Err(Breach::SecondTable);
        }
        if let Some((row, column)) = table.first_unlawful() {
            return Err(Breach::BadEntry { row, column });
        }
        tables[table.shape.pair] = true;
        Ok(Progress { tables, ..self })
    }

    fn after_frame<S: Scale>(self, frame: Frame) -> Result<Progress, Breach>
        ensures { result ≡ step_read S.Scale.coding self (said frame.entry) }
    {
        if !self.is_due(frame.kind()) {
            return Err(Breach::NotDue);
        }
        match frame {
            Frame::Opening { heads, scale } => self.after_opening::<S>(heads, scale),
            Frame::Head { head, setups } => self.after_head::<S>(head, setups),
            Frame::Table {
                first,
                second,
                digits,
            } => self.after_table::<S>(first, second, digits),
            Frame::End => Ok(Progress {
                stage: Stage::Ended,
                ..self
            }),
            Frame::Misshapen(_) | Frame::Unknown => Err(Breach::BadNumber),
        }
    }

    // What is known after one more line, with its 0A.
    pub(crate) fn after_line<S: Scale>(self, line: &[u8]) -> Result<Progress, Breach>
        ensures { result ≡ line_read S.Scale.coding self line.now }
    {
        let frame = Frame::of_line(line).ok_or(Breach::BadLine)?;
        self.after_frame::<S>(frame)
    }

    // The table that a line brings, once the heads are known; `None` for any other line.
    pub(crate) fn table_in<'a, S: Scale>(&self, line: &'a [u8]) -> Option<Table<'a, S>>
        ensures shape { option_map (λ t. t.shape) result ≡ shape_in S.Scale.coding self.now line.now }
        ensures digits { IfSome result (λ t. t.digits.now ≡ digits_in line.now) }
    {
        match Frame::of_line(line) {
            Some(
                Frame::Table {
                    first,
                    second,
                    digits,
                },
            ) => self.table(first, second, digits),
            _ => None,
        }
    }

    // What to tell of a sheet that was read to its end.
    pub(crate) fn told(&self) -> Contents
        requires { is_ended self.now.stage ≡ true }
        ensures { Tells self.now result }
    {
        Contents {
            job: Job::new(&self.setups[..self.heads as usize]).unwrap(),
            tables: self.tables,
        }
    }
}
