// An open book at its start.
ghost use Rattle.std.specs.Prelude.{◌≡◌, replicate, None};

use super::OpenBook;
use crate::bare::Ready;
use lock::Lock;
use slots::Table;

impl<L: Lock> OpenBook<L> {
    // Cannot refuse.
    pub(crate) fn start(ready: Ready) -> OpenBook<L>
        ensures slots { result.slots ≡ ready.slots }
        ensures bare { result.bare ≡ ready.bare }
        ensures accepted { result.accepted ≡ 0 }
        ensures jobs { result.jobs.slots ≡ replicate 32 None }
        ensures lock { L.opens ready.slots.count result.lock }
    {
        let Ready { slots, bare } = ready;
        OpenBook {
            slots,
            bare,
            accepted: 0,
            jobs: Table::filled(None),
            lock: L::fresh(slots),
        }
    }
}
