// What waits, in places that the caller lends: both links keep their messages so. Each call takes constant time.
ghost use Rattle.std.specs.Prelude.{◌≡◌, ◌<◌, ◌≤◌, [], length, MatchOption};

use job::refusal::Refusal;

// `count` messages wait, from the place `first` on and then from the start. The places are lent, since no library here has a heap.
#[derive(Drop)]
pub(crate) struct Queue<'a, M> {
    places: &'a mut [M],
    first: usize,
    count: usize,
    ghost inside: { first ≤ length places.now },
    ghost few: { count ≤ length places.now },
}

impl<'a, M: Copy> Queue<'a, M> {
    ghost use Rattle.link.specs.Links.{Posted};
    ghost use Rattle.link.specs.Orders.{ComesLast, NoneOut, OldestRemoved, NewestRemoved};
    ghost use Rattle.link.specs.QueueModel.{PlaceOf, limit_of, waiting_in};

    // As many places as are given, in which nothing waits. It writes nothing until a message is posted.
    pub(crate) fn new(places: &'a mut [M]) -> Queue<'a, M>
        ensures none { waiting_in result ≡ [] }
        ensures limit { limit_of result ≡ length places.old }
        ensures places { result.places.now ≡ places.old }
    {
        Queue {
            first: 0,
            count: 0,
            places,
        }
    }

    pub(crate) fn limit(&self) -> usize
        ensures { result ≡ limit_of self.now }
    {
        self.places.len()
    }

    pub(crate) fn waiting(&self) -> usize
        ensures { result ≡ length (waiting_in self.now) }
    {
        self.count
    }

    // The place of the message that comes after so many others.
    fn place_of(&self, others: usize) -> usize
        requires { others < limit_of self.now }
        ensures { PlaceOf self.now others result }
    {
        let gap = self.places.len() - self.first;
        if others < gap {
            self.first + others
        } else {
            others - gap
        }
    }

    // Adds the message as the newest, or refuses it where every place is taken.
    pub(crate) fn post(&mut self, message: M) -> Result<(), Refusal>
        ensures meaning { Posted message (limit_of self.old) (waiting_in self.old) result (limit_of self.new) (waiting_in self.new) }
        ensures order { ComesLast message (waiting_in self.old) result (waiting_in self.new) }
    {
        if self.count == self.places.len() {
            return Err(Refusal::LinkFull);
        }
        let others = self.count;
        let at = self.place_of(others);
        self.places[at] = message;
        self.count = others + 1;
        Ok(())
    }

    pub(crate) fn remove_oldest(&mut self) -> Option<M>
        ensures { MatchOption result
            (NoneOut (limit_of self.old) (waiting_in self.old) (limit_of self.new) (waiting_in self.new))
            (λ m. OldestRemoved m (limit_of self.old) (waiting_in self.old) (limit_of self.new) (waiting_in self.new)) }
    {
        if self.count == 0 {
            return None;
        }
        let at = self.place_of(0);
        self.first = at + 1;
        self.count -= 1;
        Some(self.places[at])
    }

    pub(crate) fn remove_newest(&mut self) -> Option<M>
        ensures { MatchOption result
            (NoneOut (limit_of self.old) (waiting_in self.old) (limit_of self.new) (waiting_in self.new))
            (λ m. NewestRemoved m (limit_of self.old) (waiting_in self.old) (limit_of self.new) (waiting_in self.new)) }
    {
        if self.count == 0 {
            return None;
        }
        let others = self.count - 1;
        let at = self.place_of(others);
        self.count = others;
        Some(self.places[at])
    }
}
