// What holds on the scales beyond their laws: each function does what its theorem speaks of.
ghost use Rattle.std.specs.Prelude.{◌≡◌, length, Some};
ghost use Rattle.scale.specs.MinutesModel.{minutes as minutes_scale};
ghost use Rattle.scale.specs.ClashesModel.{clashes as clashes_scale};
ghost use Rattle.scale.specs.Operations.{AtMost};
ghost use Rattle.scale.specs.Edges.{NeverStays, ReadsBack, MinutesStop, ClashesStop};

use crate::clashes::Clashes;
use crate::minutes::Minutes;
use crate::scale::Scale;

// The same as `never_joined` for a cost that is known to be never.
fn never_stays_known<S: Scale>(never: S, cost: S) -> S
    requires { never ≡ S.Scale.scale.never }
    ensures value { result ≡ S.Scale.scale.never }
    ensures every { NeverStays S.Scale.scale }
{
    never.join(cost)
}

// Never joined with a cost: never joined with anything is never, on every scale.
pub fn never_joined<S: Scale>(cost: S) -> S
    ensures value { result ≡ S.Scale.scale.never }
    ensures every { NeverStays S.Scale.scale }
{
    never_stays_known(S::never(), cost)
}

// Fills a memory of just its length with a cost's bytes.
fn fill<S: Scale>(cost: S, bytes: &mut [u8])
    requires { length bytes.old ≡ S.Scale.coding.width }
    ensures { bytes.new ≡ S.Scale.coding.bytes cost }
{
    let _ = cost.write(bytes);
}

// A cost that is written and read again: the bytes that are written of a cost read as that cost, on every scale.
pub fn written_and_read<S: Scale>(cost: S) -> Option<S>
    ensures value { result ≡ Some cost }
    ensures every { ReadsBack S.Scale.coding }
{
    let mut buffer = [0; 6];
    let bytes = &mut buffer[..S::WIDTH];
    fill(cost, bytes);
    S::read(bytes)
}

// Joins two costs that are known to come to no less than never.
fn join_to_never<S: Scale>(cost: S, other: S) -> S
    requires { AtMost S.Scale.scale S.Scale.scale.never (S.Scale.scale.join cost other) }
    ensures { result ≡ S.Scale.scale.never }
{
    cost.join(other)
}

// 999,999,999 minutes joined with 1 are never, and so are 999 clashes joined with 1.
pub fn sums_past_the_most() -> Option<(Minutes, Clashes)>
    ensures value { result ≡ Some (minutes_scale.never, clashes_scale.never) }
    ensures minutes { MinutesStop }
    ensures clashes { ClashesStop }
{
    let minutes = join_to_never(Minutes::new(999_999_999)?, Minutes::new(1)?);
    let clashes = join_to_never(Clashes::new(999, 0)?, Clashes::new(1, 0)?);
    Some((minutes, clashes))
}

// Never joined with anything is never, on every scale.
pub fn never_stays<S: Scale>() -> u8
    ensures { NeverStays S.Scale.scale }
{
    0
}

// The bytes that are written of a cost read as that cost, on every scale.
pub fn reads_back<S: Scale>() -> u8
    ensures { ReadsBack S.Scale.coding }
{
    0
}

// 999,999,999 minutes joined with 1 are never, and so are 999 clashes joined with 1.
pub fn sums_stop() -> u8
    ensures minutes { MinutesStop }
    ensures clashes { ClashesStop }
{
    0
}
