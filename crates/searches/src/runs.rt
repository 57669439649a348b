// What follows for the run of a job, as a theorem.
ghost use Rattle.std.specs.Prelude.{◌≡◌};
ghost use Rattle.searches.specs.Promises.{EveryMomentKeepsItsPromise, EveryMomentCanEnd, EveryRunKeepsItsPromise};

use scale::scale::Scale;

// At each moment every message that waits is expected and no post is lost, and when nothing waits all heads agree on the cheapest plan,
// or on none where every plan costs never; from each moment a run can come to that end, and none takes too many messages.
pub fn promises_stand<S: Scale>() -> u8
    ensures answer { result ≡ 0 }
    ensures moments { EveryMomentKeepsItsPromise S.Scale.scale }
    ensures ends { EveryMomentCanEnd S.Scale.scale }
    ensures runs { EveryRunKeepsItsPromise S.Scale.scale }
{
    0
}
