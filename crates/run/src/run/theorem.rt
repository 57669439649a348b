// What holds of whole runs.
ghost use Rattle.std.specs.Prelude.{◌≡◌};
ghost use Rattle.run.specs.Whole.{EveryRunStands};

use scale::scale::Scale;

// A theorem: after any calls, granted or refused, from a granted start on, all of `Whole` holds.
pub fn whole_run_stands<S: Scale>() -> u8
    ensures answer { result ≡ 0 }
    ensures whole { EveryRunStands S.Scale.scale }
{
    0
}
