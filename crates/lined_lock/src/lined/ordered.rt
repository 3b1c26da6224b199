// Each such lock is ordered.
ghost use Rattle.lined_lock.specs.Lock.{line_of};

use super::LinedLock;
use crate::words::Procedures;
use lock::OrderedLock;

impl<P: Procedures<W>, W: Copy> OrderedLock for LinedLock<P, W> {
    ghost line = { line_of };

    fn keeps_line() {}
}
