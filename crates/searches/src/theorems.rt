// What the run of a job rests on, as a theorem.
ghost use Rattle.std.specs.Prelude.{◌≡◌};
ghost use Rattle.searches.specs.Promises.{BeginningHolds, EveryMoveKeeps, NoMoveRaises};

use scale::scale::Scale;

// What holds at every moment: the beginning has it, and every move of searches that share a bag keeps it and makes no best worse.
pub fn searches_stand<S: Scale>() -> u8
    ensures answer { result ≡ 0 }
    ensures begins { BeginningHolds S.Scale.scale }
    ensures keeps { EveryMoveKeeps S.Scale.scale }
    ensures improves { NoMoveRaises S.Scale.scale }
{
    0
}
