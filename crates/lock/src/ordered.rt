// A lock that also has a line, in which slots stand from their arrival until their hold finishes.
ghost use Rattle.std.specs.Prelude.{ℕ, List};
ghost use Rattle.lock.specs.Line.{EmptyWhenFresh, SameAtCalls, ArrivesInTurn, QuitsAtFinish};

use crate::meaning::Lock;

pub trait OrderedLock: Lock {
    ghost line: { Self → List ℕ };

    // The rules of the line, over the moves and the meaning of the lock.
    fn keeps_line()
        ensures fresh { EmptyWhenFresh Self.Lock line }
        ensures call { SameAtCalls Self.Lock line }
        ensures step { ArrivesInTurn Self.Lock line }
        ensures finish { QuitsAtFinish Self.Lock line };
}
