// Reading a run that has ended.
ghost use Rattle.std.specs.Prelude.{◌≡◌};

use super::{Ended, Found};
use scale::scale::Scale;

impl<S: Scale> Ended<S> {
    // How many heads its job has.
    pub fn heads(&self) -> u8
        ensures { result ≡ self.now.heads }
    {
        self.heads
    }

    // How many messages were taken.
    pub fn count(&self) -> u64
        ensures { result ≡ self.now.count }
    {
        self.count
    }

    // A cheapest plan with its cost, or no plan.
    pub fn outcome(&self) -> Option<Found<S>>
        ensures { result ≡ self.now.outcome }
    {
        self.outcome
    }
}
