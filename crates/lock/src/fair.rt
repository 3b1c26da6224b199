// A lock in which every job gets on: the promise that bounds in rounds rest on.
ghost use Rattle.lock.specs.Progress.{Progress, longest_hold, rounds_a_slot};

use crate::ordered::OrderedLock;

pub trait FairLock: OrderedLock {
    fn makes_progress()
        ensures { Progress Self.Lock longest_hold rounds_a_slot };
}
