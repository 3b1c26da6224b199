// A lock of such words is fair where its procedures let every job on.
ghost use Rattle.lined_lock.specs.Lock.{locked};
ghost use Rattle.lock.specs.Progress.{Progress, longest_hold, rounds_a_slot};

use crate::lined::LinedLock;
use crate::words::Procedures;
use lock::FairLock;

pub trait FairProcedures<W>: Procedures<W> {
    ghost progress: { Progress (locked Self.Procedures) longest_hold rounds_a_slot };
}

impl<P: FairProcedures<W>, W: Copy> FairLock for LinedLock<P, W> {
    fn makes_progress() {}
}
