// What the queue lock shows: its shared words, and a checksum of all words and registers.
ghost use Rattle.std.specs.Prelude.{◌≡◌};
ghost use Rattle.lock_runs.specs.Queue.{slot_number, record_mixed, mixed_to, shows, sums};

use crate::mix::mix;
use crate::shown::Shown;
use lock::Lock;
use queue_lock::QueueLock;
use queue_words::Words;
use queue_words::record::Record;
use slots::Slot;
use std::alloc::{AllocError, Global};

// None is 0. Slots are below 32. A formula of the checksum, and no conversion of a type of ours.
fn slot_number(slot: Option<usize>) -> u32
    ensures { result ≡ slot_number slot }
{
    match slot {
        None => 0,
        Some(k) => (k % 32) as u32 + 1,
    }
}

fn mix_record(sum: u32, record: Record) -> u32
    ensures { result ≡ record_mixed sum «record» }
{
    let sum = mix(sum, record.class as u32);
    let sum = mix(sum, slot_number(record.next));
    let sum = mix(sum, u32::from(record.state.blocked));
    let sum = mix(sum, record.state.successor as u32);
    let sum = mix(sum, slot_number(record.pred));
    mix(sum, slot_number(record.w))
}

fn mix_shared(words: &Words) -> u32
    ensures { result ≡ mixed_to words.now 0 }
{
    let sum = mix(0, slot_number(words.tail()));
    let sum = mix(sum, slot_number(words.next_writer()));
    mix(sum, words.reader_count())
}

impl Shown for QueueLock {
    ghost shows = { λ s. shows s.words };

    ghost sums = { λ s. sums s.words };

    fn show(&self, heap: Global, slot: Slot) -> Result<String, AllocError> {
        let words = self.words();
        let label = self.label(slot);
        let tail = slot_number(words.tail());
        let writer = slot_number(words.next_writer());
        let readers = words.reader_count();
        let sum = self.checksum();
        format!(in heap; "{label} {tail} {writer} {readers} {sum}")
    }

    fn checksum(&self) -> u32 {
        let words = self.words();
        let mut sum = mix_shared(&words);
        for slot in 0..32 {
            sum = mix_record(sum, words.record(slot));
        }
        sum
    }
}
