// What the search rests on of bags, as theorems.
ghost use Rattle.std.specs.Prelude.{◌≡◌};
ghost use Rattle.link.specs.Parts.{TakingTakesFromOnePart, AnsweringKeepsTheParts, SendingKeepsTheParts, NoticingKeepsTheParts, StoppingKeepsTheParts};

// Which part of a bag a message comes from that is taken, and which part messages come to that are posted: for searches Q and
// messages M of any kind.
pub fn bags_stand<Q: Copy, M: Copy>() -> u8
    ensures answer { result ≡ 0 }
    ensures taking { TakingTakesFromOnePart Q M }
    ensures answering { AnsweringKeepsTheParts Q M }
    ensures sending { SendingKeepsTheParts Q M }
    ensures noticing { NoticingKeepsTheParts Q M }
    ensures stopping { StoppingKeepsTheParts Q M }
{
    0
}
