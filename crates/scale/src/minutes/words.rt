// Minutes in words, for a person.
ghost use Rattle.std.specs.Prelude.{Some};
ghost use Rattle.scale.specs.MinutesWords.{minutes_words};

use super::Minutes;
use super::operations::NEVER;
use crate::words::noun;
use std::fmt;

// "never", "1 minute", "17 minutes"
impl fmt::Display for Minutes {
    ghost output = { λ x. Some (minutes_words x) };

    fn fmt<W: fmt::Write>(&self, f: &mut fmt::Formatter<W>) -> fmt::Result {
        if self.value == NEVER {
            return write!(f, "never");
        }
        let count = self.value;
        let minutes = noun(count, "minute", "minutes");
        write!(f, "{count} {minutes}")
    }
}
