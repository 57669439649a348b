// Minutes as a scale: number 01, four bytes.
ghost use Rattle.std.specs.Prelude.{◌≡◌};
ghost use Rattle.scale.specs.MinutesModel.{minutes, minutes_bytes, minutes_coding};
ghost use Rattle.scale.specs.MinutesLaws.{minutes_lawful, minutes_coded, minutes_wide};

use super::Minutes;
use crate::bytes::write_front;
use crate::scale::Scale;

pub(crate) const NEVER: u32 = 1_000_000_000;

// the most that a sheet may have for a pair of setups, short of never
const MOST_ENTERED: u32 = 1_000_000;

impl Minutes {
    fn to_bytes(self) -> [u8; 4]
        ensures { result ≡ minutes_bytes self }
    {
        if self.value == NEVER {
            [255; 4]
        } else {
            self.value.to_be_bytes()
        }
    }
}

impl Scale for Minutes {
    ghost scale = { minutes };

    ghost coding = { minutes_coding };

    ghost WIDTH = { 4 };

    const WIDTH: usize = 4;

    ghost lawful = { minutes_lawful };

    ghost coded = { minutes_coded };

    ghost wide = { minutes_wide };

    fn number() -> u8 {
        1
    }

    fn nothing() -> Minutes {
        Minutes { value: 0 }
    }

    fn never() -> Minutes {
        Minutes { value: NEVER }
    }

    fn join(self, other: Minutes) -> Minutes {
        Minutes::capped(self.value + other.value)
    }

    fn at_most(self, other: Minutes) -> bool {
        self <= other
    }

    fn is_enterable(self) -> bool {
        self.value <= MOST_ENTERED || self.value == NEVER
    }

    fn write(self, out: &mut [u8]) -> Option<usize> {
        write_front(out, &self.to_bytes())
    }

    fn read(from: &[u8]) -> Option<Minutes> {
        let [a, b, c, d] = from else {
            return None;
        };
        let value = u32::from_be_bytes([*a, *b, *c, *d]);
        if value == u32::MAX {
            return Some(Self::never());
        }
        if value >= NEVER {
            return None;
        }
        Some(Minutes { value })
    }
}
