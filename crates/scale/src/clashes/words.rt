// Clashes and minutes in words, for a person.
ghost use Rattle.std.specs.Prelude.{Some};
ghost use Rattle.scale.specs.ClashesWords.{clashes_words};

use super::Clashes;
use super::operations::NEVER;
use crate::words::noun;
use std::fmt;

// "never", "1 clash and 0 minutes", "2 clashes and 1 minute"
impl fmt::Display for Clashes {
    ghost output = { λ x. Some (clashes_words x) };

    fn fmt<W: fmt::Write>(&self, f: &mut fmt::Formatter<W>) -> fmt::Result {
        if self.clashes == NEVER {
            return write!(f, "never");
        }
        let (many, long) = (self.clashes, self.minutes);
        let (clashes, minutes) = (
            noun(u32::from(many), "clash", "clashes"),
            noun(long, "minute", "minutes"),
        );
        write!(f, "{many} {clashes} and {long} {minutes}")
    }
}
