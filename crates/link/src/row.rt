// Links in places that the caller lends, which differ in the end that they take from.
ghost use Rattle.std.specs.Prelude.{◌≡◌, [], length};
ghost use Rattle.link.specs.Links.{Posted, Taken};
ghost use Rattle.link.specs.Orders.{ComesLast, EndTaken};
ghost use Rattle.link.specs.RowModel.{row_limit, row_waiting, row_room};

use crate::link::Link;
use crate::queue::Queue;
use job::refusal::Refusal;

// Takes the newest message where NEWEST says so, else the oldest.
#[derive(Drop)]
pub struct Row<'a, M, const NEWEST: bool> {
    queue: Queue<'a, M>,
}

impl<'a, M: Copy, const NEWEST: bool> Row<'a, M, NEWEST> {
    // A link of as many places as are given, in which nothing waits. It writes nothing until a message is posted.
    pub fn new(places: &'a mut [M]) -> Row<'a, M, NEWEST>
        ensures none { row_waiting result ≡ [] }
        ensures limit { row_limit result ≡ length places.old }
        ensures places { result.queue.places.now ≡ places.old }
    {
        Row {
            queue: Queue::new(places),
        }
    }
}

impl<'a, M: Copy, const NEWEST: bool> Link<M> for Row<'a, M, NEWEST> {
    ghost limit = { row_limit };

    // the oldest first
    ghost bag = { row_waiting };

    ghost room = { row_room };

    // Nothing is refused here itself. Where a must-fail edit does so, `same_refl` says that the bag stays, so that the refusal's number
    // and the count are judged.
    #[tactic(auto, using(crate::proofs::Bags::same_refl))]
    fn post(&mut self, message: M) -> Result<(), Refusal>
        ensures meaning { Posted message (row_limit self.old) (row_waiting self.old) result (row_limit self.new) (row_waiting self.new) }
        ensures order { ComesLast message (row_waiting self.old) result (row_waiting self.new) }
    {
        self.queue.post(message)
    }

    fn take(&mut self, place: &mut M) -> Result<(), Refusal>
        ensures meaning { Taken (row_limit self.old) (row_waiting self.old) place.old result (row_limit self.new) (row_waiting self.new) place.new }
        ensures order { EndTaken NEWEST (row_waiting self.old) result (row_waiting self.new) place.new }
    {
        let taken = if NEWEST {
            self.queue.remove_newest()
        } else {
            self.queue.remove_oldest()
        };
        *place = taken.ok_or(Refusal::NoneWaits)?;
        Ok(())
    }

    fn limit(&self) -> usize {
        self.queue.limit()
    }

    fn waiting(&self) -> usize {
        self.queue.waiting()
    }
}
