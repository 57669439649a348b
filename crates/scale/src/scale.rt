// A scale is a kind of cost. Everything above is generic over it and uses only what this trait promises.
ghost use Rattle.std.specs.Prelude.{◌≡◌, ℕ};
ghost use Rattle.scale.specs.Operations.{Operations, Laws};
ghost use Rattle.scale.specs.Coding.{Coding, Coded, reading, written, writing};

pub trait Scale: Copy {
    // the marked values nothing and never, the join and the order
    ghost scale: { Operations Self };

    // number, width, bytes
    ghost coding: { Coding Self };

    // how many bytes an entry has
    ghost WIDTH: { ℕ };

    const WIDTH: usize;

    // The scale's number in the first line of a sheet.
    fn number() -> u8
        ensures { result ≡ coding.number };

    fn nothing() -> Self
        ensures { result ≡ scale.nothing };

    fn never() -> Self
        ensures { result ≡ scale.never };

    fn join(self, other: Self) -> Self
        ensures { result ≡ scale.join self other };

    fn at_most(self, other: Self) -> bool
        ensures { result ≡ scale.leq self other };

    // Whether the cost may be an entry of a sheet.
    fn is_enterable(self) -> bool
        ensures { result ≡ coding.enterable self };

    // Writes the cost's bytes to the front of `out` and answers how many; `None` and nothing written where `out` is too short.
    fn write(self, out: &mut [u8]) -> Option<usize>
        ensures result { result ≡ written coding out.old }
        ensures memory { out.new ≡ writing coding self out.old };

    // The cost that has just these bytes, if there is one.
    fn read(from: &[u8]) -> Option<Self>
        ensures { result ≡ reading coding from.now };

    ghost lawful: { Laws scale };

    ghost coded: { Coded scale coding };

    ghost wide: { WIDTH ≡ coding.width };
}
