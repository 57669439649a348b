// Clashes and minutes as numbers.
ghost use Rattle.std.specs.Prelude.{◌≡◌};
ghost use Rattle.scale.specs.ClashesModel.{clashes_of};

use super::Clashes;
use super::operations::{MOST_MINUTES, NEVER};

impl Clashes {
    // So many clashes and minutes, or `None` where there is no such value.
    pub fn new(clashes: u16, minutes: u32) -> Option<Clashes>
        ensures { result ≡ clashes_of clashes minutes }
    {
        if clashes > NEVER || minutes > MOST_MINUTES {
            return None;
        }
        if clashes == NEVER && minutes < MOST_MINUTES {
            return None;
        }
        Some(Clashes { clashes, minutes })
    }

    pub fn clashes(self) -> u16
        ensures { result ≡ self.clashes }
    {
        self.clashes
    }

    pub fn minutes(self) -> u32
        ensures { result ≡ self.minutes }
    {
        self.minutes
    }
}
