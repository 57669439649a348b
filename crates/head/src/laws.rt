// What holds of every act of a head, as theorems.
ghost use Rattle.std.specs.Prelude.{◌≡◌};
ghost use Rattle.head.specs.HeadLaws.{BestNeverRises, BestStaysAPlan, FewPosts, ReportTellsTheBound};

use scale::scale::Scale;

// No message but a stop raises a head's best; a best stays a complete plan with its cost, or never with no plan; an act sends at most
// seven messages besides notices; and a report tells the bound.
pub fn laws_stand<S: Scale>() -> u8
    ensures answer { result ≡ 0 }
    ensures lower { BestNeverRises S.Scale.scale }
    ensures plans { BestStaysAPlan S.Scale.scale }
    ensures few { FewPosts S.Scale.scale }
    ensures bounds { ReportTellsTheBound S.Scale.scale }
{
    0
}
