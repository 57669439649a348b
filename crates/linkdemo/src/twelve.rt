// The messages that the program sends: a short talk of three heads.
ghost use Rattle.std.specs.Prelude.{◌≡◌, min};

use job::plan::Plan;
use link::message::{Kind, Message};
use scale::minutes::Minutes;

// A message of the search 1 about no plan, at so many minutes, or never past 1,000,000,000.
pub(crate) fn message(kind: Kind, from: u8, to: u8, minutes: u32) -> Message<Minutes>
    ensures kind { result.kind ≡ kind }
    ensures from { result.from ≡ from }
    ensures to { result.to ≡ to }
    ensures cost { result.cost.value ≡ min minutes 1000000000 }
{
    Message {
        kind,
        to,
        from,
        search: 1,
        plan: Plan::empty(),
        cost: Minutes::capped(minutes),
    }
}

// Requests for bounds, the reports, plans handed on, two notices of a complete plan, and the stop.
pub(crate) fn twelve() -> [Message<Minutes>; 12] {
    [
        message(Kind::Request, 1, 2, 0),
        message(Kind::Request, 1, 3, 0),
        message(Kind::Report, 2, 1, 1),
        message(Kind::Report, 3, 1, 2),
        message(Kind::Plan, 1, 3, 2),
        message(Kind::Request, 3, 2, 2),
        message(Kind::Report, 2, 3, 3),
        message(Kind::Plan, 3, 2, 4),
        message(Kind::Notice, 2, 1, 5),
        message(Kind::Notice, 2, 3, 5),
        message(Kind::Return, 2, 1, 5),
        message(Kind::Stop, 1, 2, 5),
    ]
}
