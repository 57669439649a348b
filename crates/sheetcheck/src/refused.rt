// Why a sheet is refused, for a person.
use sheet::breach::{Breach, SheetRefusal};
use std::fmt;

#[derive(Clone, Copy)]
pub struct Refused(pub SheetRefusal);

impl fmt::Display for Refused {
    fn fmt<W: fmt::Write>(&self, f: &mut fmt::Formatter<W>) -> fmt::Result {
        let SheetRefusal { line, breach } = self.0;
        let rule = breach.refusal().number();
        if line == 0 {
            writeln!(f, "The sheet is refused by rule {rule}: {breach}.")?;
        } else {
            writeln!(f, "Line {line} is refused by rule {rule}: {breach}.")?;
        }
        match breach {
            Breach::BadEntry { row, column } => entry(f, row, column),
            _ => Ok(()),
        }
    }
}

// Where a bad entry stands: a person counts rows and columns from 1, and setups from 0 as the sheet does.
fn entry<W: fmt::Write>(f: &mut fmt::Formatter<W>, i: u8, j: u8) -> fmt::Result {
    let row = u16::from(i) + 1;
    let column = u16::from(j) + 1;
    writeln!(
        f,
        "  It stands in row {row}, column {column} of the table: setup {i} of the first head with setup {j} of the second."
    )
}
