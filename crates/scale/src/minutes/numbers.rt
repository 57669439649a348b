// Minutes as a number.
ghost use Rattle.std.specs.Prelude.{◌≡◌};
ghost use Rattle.scale.specs.MinutesModel.{minutes_of, capped};

use super::Minutes;
use super::operations::NEVER;

impl Minutes {
    // So many minutes, or `None` past 1,000,000,000.
    pub fn new(value: u32) -> Option<Minutes>
        ensures { result ≡ minutes_of value }
    {
        if value > NEVER {
            return None;
        }
        Some(Minutes { value })
    }

    // So many minutes, or never past 1,000,000,000.
    pub fn capped(value: u32) -> Minutes
        ensures { result ≡ capped value }
    {
        Minutes {
            value: value.min(NEVER),
        }
    }

    pub fn value(self) -> u32
        ensures { result ≡ self.value }
    {
        self.value
    }
}
