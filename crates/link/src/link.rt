// What carries messages between the heads.
ghost use Rattle.std.specs.Prelude.{◌≡◌, ℕ, ◌≤◌, List, length};
ghost use Rattle.link.specs.Links.{Posted, Taken};

use job::refusal::Refusal;

// A link's meaning is its limit, which never changes, and the collection of messages that wait in it, equal ones counted. In
// which order they come out is free.
pub trait Link<M: Copy> {
    ghost limit: { Self → ℕ };

    // what waits, in some order
    ghost bag: { Self → List M };

    // no link holds more than its limit
    ghost room: { (l : Self) → length (bag l) ≤ limit l };

    // Adds exactly this message; refused with 10 exactly where as many wait as the limit says.
    fn post(&mut self, message: M) -> Result<(), Refusal>
        ensures { Posted message (limit self.old) (bag self.old) result (limit self.new) (bag self.new) };

    // Removes one waiting message, any one, and puts it into the place, which keeps what it held where none waits; refused with 11
    // exactly then.
    fn take(&mut self, place: &mut M) -> Result<(), Refusal>
        ensures { Taken (limit self.old) (bag self.old) place.old result (limit self.new) (bag self.new) place.new };

    fn limit(&self) -> usize
        ensures { result ≡ limit self.now };

    // How many messages wait.
    fn waiting(&self) -> usize
        ensures { result ≡ length (bag self.now) };
}
