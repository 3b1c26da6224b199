// The accesses to the tail and the reader count. Each makes one access for a slot, and leaves it at one of the standings that
// it is told, by the word just read.
ghost use Rattle.std.specs.Prelude.{◌≡◌, if◌then◌else◌, nat_eq};
ghost use Rattle.queue_words.specs.Steps.{stand, swap_tail, release_tail, count_in, count_out};

use super::Words;
use crate::record::{Record, State, Successor};
use crate::standing::Standing;
use lock::Class;

impl Words {
    // W1, R1: fills the own record, and swaps the tail for the slot into pred.
    pub(crate) fn swap_tail(&mut self, slot: usize, class: Class, none: Standing, other: Standing)
        ensures { self.new ≡ swap_tail self.old slot class none other }
    {
        let standing = match self.tail {
            None => none,
            Some(_) => other,
        };
        let filled = Record {
            standing,
            class,
            next: None,
            state: State {
                blocked: true,
                successor: Successor::Nobody,
            },
            pred: self.tail,
            w: self.record(slot).w,
        };
        self.put(slot, filled);
        self.tail = Some(slot);
    }

    // E2, V2: compares the tail with the slot, and stores none where it is.
    pub(crate) fn release_tail(&mut self, slot: usize, done: Standing, other: Standing)
        ensures { self.new ≡ release_tail self.old slot done other }
    {
        if self.tail == Some(slot) {
            self.stand(slot, done);
            self.tail = None;
        } else {
            self.stand(slot, other);
        }
    }

    // W3, E8: reads the reader count.
    pub(crate) fn read_count(&mut self, slot: usize, zero: Standing, other: Standing)
        ensures { self.new ≡ stand self.old slot (if nat_eq self.old.reader_count 0 then zero else other) }
    {
        match self.reader_count {
            0 => self.stand(slot, zero),
            _ => self.stand(slot, other),
        }
    }

    // R2, R7, R12, V5: adds one to the reader count.
    pub(crate) fn count_in(&mut self, slot: usize, next: Standing)
        ensures { self.new ≡ count_in self.old slot next }
    {
        self.stand(slot, next);
        self.reader_count = self.reader_count.wrapping_add(1);
    }

    // E6: subtracts one from the reader count.
    pub(crate) fn count_out(&mut self, slot: usize, last: Standing, other: Standing)
        ensures { self.new ≡ count_out self.old slot last other }
    {
        match self.reader_count {
            1 => self.stand(slot, last),
            _ => self.stand(slot, other),
        }
        self.reader_count = self.reader_count.wrapping_sub(1);
    }
}
