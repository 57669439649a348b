// The rules that a sheet can break.
ghost use Rattle.std.specs.Prelude.{◌≡◌};
ghost use Rattle.sheet.specs.Breaches.{refusal as refusal_of};

use job::refusal::Refusal;
use thiserror::Error;

// What a line, or the sheet, is or has that breaks the rule.
#[derive(Clone, Copy, Debug, PartialEq, Eq, Error)]
pub enum Breach {
    #[error("it has more than 24,000 bytes")]
    TooLong,
    // fewer than 1,792 places
    #[error("there is too little memory for the costs")]
    TooLittle,
    #[error("it is no line of an even number of digits 0-9 and A-F, 2 to 774 of them, with a line end")]
    BadLine,
    #[error("a line of this kind is not due here, or the end is missing")]
    NotDue,
    #[error("its length is wrong, or a number is outside its range")]
    BadNumber,
    #[error("this pair has a table already")]
    SecondTable,
    // the first entry of a table that a sheet may not have; rows and columns count from 0
    #[error("an entry is past 1,000,000 minutes or 10 clashes, and is not never, which is F throughout")]
    BadEntry { row: u8, column: u8 },
}

impl From<Breach> for Refusal {
    ghost from_gives = { λ breach refusal. refusal ≡ refusal_of breach };

    fn from(breach: Breach) -> Refusal {
        match breach {
            Breach::TooLong => Refusal::TooLong,
            Breach::TooLittle => Refusal::TooLittle,
            Breach::BadLine => Refusal::BadLine,
            Breach::NotDue => Refusal::NotDue,
            Breach::BadNumber => Refusal::BadNumber,
            Breach::SecondTable => Refusal::SecondTable,
            Breach::BadEntry { .. } => Refusal::BadEntry,
        }
    }
}

impl Breach {
    pub fn refusal(self) -> Refusal
        ensures { result ≡ refusal_of self }
    {
        self.into()
    }

    // The refusal of a line for this breach.
    pub(crate) fn at_line(self, line: u16) -> SheetRefusal
        ensures { result ≡ record { line = line; breach = self } }
    {
        SheetRefusal { line, breach: self }
    }
}

// A rule with the number of the line that breaks it, from 1; line 0 is the sheet as a whole, as
// the line of a refusal has it.
#[derive(Clone, Copy, Debug, PartialEq, Eq)]
pub struct SheetRefusal {
    pub line: u16,
    pub breach: Breach,
}
