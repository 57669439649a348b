// Clashes first, as a scale: number 02, two bytes of clashes and four of minutes.
ghost use Rattle.std.specs.Prelude.{◌≡◌};
ghost use Rattle.scale.specs.ClashesModel.{clashes, clashes_bytes, clashes_coding};
ghost use Rattle.scale.specs.ClashesLaws.{clashes_lawful, clashes_coded, clashes_wide};

use super::Clashes;
use crate::bytes::write_front;
use crate::scale::Scale;

pub(crate) const NEVER: u16 = 1000;

pub(crate) const MOST_MINUTES: u32 = 1_000_000_000;

// the most that a sheet may have for a pair of setups, short of never
const MOST_CLASHES_ENTERED: u16 = 10;

const MOST_MINUTES_ENTERED: u32 = 1_000_000;

impl Clashes {
    fn to_bytes(self) -> [u8; 6]
        ensures { result ≡ clashes_bytes self }
    {
        if self.clashes == NEVER {
            return [255; 6];
        }
        let [a, b] = self.clashes.to_be_bytes();
        let [c, d, e, f] = self.minutes.to_be_bytes();
        [a, b, c, d, e, f]
    }
}

impl Scale for Clashes {
    ghost scale = { clashes };

    ghost coding = { clashes_coding };

    ghost WIDTH = { 6 };

    const WIDTH: usize = 6;

    ghost lawful = { clashes_lawful };

    ghost coded = { clashes_coded };

    ghost wide = { clashes_wide };

    fn number() -> u8 {
        2
    }

    fn nothing() -> Clashes {
        Clashes {
            clashes: 0,
            minutes: 0,
        }
    }

    fn never() -> Clashes {
        Clashes {
            clashes: NEVER,
            minutes: MOST_MINUTES,
        }
    }

    fn join(self, other: Clashes) -> Clashes {
        let clashes = self.clashes + other.clashes;
        if clashes >= NEVER {
            return Self::never();
        }
        let minutes = (self.minutes + other.minutes).min(MOST_MINUTES);
        Clashes { clashes, minutes }
    }

    fn at_most(self, other: Clashes) -> bool {
        self <= other
    }

    fn is_enterable(self) -> bool {
        self.clashes <= MOST_CLASHES_ENTERED && self.minutes <= MOST_MINUTES_ENTERED
            || self.clashes == NEVER
    }

    fn write(self, out: &mut [u8]) -> Option<usize> {
        write_front(out, &self.to_bytes())
    }

    fn read(from: &[u8]) -> Option<Clashes> {
        let [a, b, c, d, e, f] = from else {
            return None;
        };
        let clashes = u16::from_be_bytes([*a, *b]);
        let minutes = u32::from_be_bytes([*c, *d, *e, *f]);
        if clashes == u16::MAX && minutes == u32::MAX {
            return Some(Self::never());
        }
        if clashes >= NEVER || minutes > MOST_MINUTES {
            return None;
        }
        Some(Clashes { clashes, minutes })
    }
}
