// What the plain lock shows: its one word.
ghost use Rattle.lock_runs.specs.Plain.{shows, sums};

use crate::shown::Shown;
use lock::Lock;
use plain_lock::PlainLock;
use slots::Slot;
use std::alloc::{AllocError, Global};

impl Shown for PlainLock {
    ghost shows = { shows };

    ghost sums = { sums };

    fn show(&self, heap: Global, slot: Slot) -> Result<String, AllocError> {
        let label = self.label(slot);
        let word = self.words().word();
        format!(in heap; "{label} {word}")
    }

    fn checksum(&self) -> u32 {
        self.words().word()
    }
}
