// Why a call declines.
ghost use Rattle.std.specs.Prelude.{◌≡◌, ◌++◌, Some, codes, decimal};
ghost use Rattle.job.specs.Refusals.{number as number_of};

use std::error::Error;
use std::fmt;

// One case for each number; `number` in specs/Refusals.antt has the numbers.
#[derive(Clone, Copy, Debug, PartialEq, Eq)]
pub enum Refusal {
    // more bytes than a sheet may have
    TooLong = 1,
    // a line that is no frame
    BadLine = 2,
    // a frame that is not due
    NotDue = 3,
    // a length or a number outside its range
    BadNumber = 4,
    // a second table for a pair
    SecondTable = 5,
    // an unlawful entry
    BadEntry = 6,
    // less memory than is asked for
    TooLittle = 7,
    // a link of too low a limit
    LimitTooLow = 8,
    // a message waits at the start
    MessageWaits = 9,
    // the link is full
    LinkFull = 10,
    // no message waits
    NoneWaits = 11,
    // a stray message
    Stray = 13,
    // a search is out or a message waits at the end
    StillOut = 14,
}

impl Refusal {
    pub fn number(self) -> u8
        ensures { result ≡ number_of self }
    {
        self as u8
    }
}

// "refused by rule 13"
impl fmt::Display for Refusal {
    ghost output = { λ x. Some (codes "refused by rule " ++ decimal (number_of x)) };

    fn fmt<W: fmt::Write>(&self, f: &mut fmt::Formatter<W>) -> fmt::Result {
        let number = self.number();
        write!(f, "refused by rule {number}")
    }
}

impl Error for Refusal {}
