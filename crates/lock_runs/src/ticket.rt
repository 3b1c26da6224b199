// What the ticket lock shows: its two words, and the register of a slot.
ghost use Rattle.lock_runs.specs.Ticket.{shows, sums};

use crate::mix::mix;
use crate::shown::Shown;
use lock::Lock;
use slots::Slot;
use std::alloc::{AllocError, Global};
use ticket_lock::TicketLock;

impl Shown for TicketLock {
    ghost shows = { λ s. shows s.words };

    ghost sums = { λ s. sums s.words };

    fn show(&self, heap: Global, slot: Slot) -> Result<String, AllocError> {
        let words = self.words();
        let label = self.label(slot);
        let requests = words.requests();
        let completions = words.completions();
        let kept = words.kept(slot);
        format!(in heap; "{label} {requests} {completions} {kept}")
    }

    fn checksum(&self) -> u32 {
        let words = self.words();
        let mut sum = mix(mix(0, words.requests()), words.completions());
        let rows = words.places().rows();
        for place in rows {
            sum = mix(sum, place.kept);
        }
        sum
    }
}
