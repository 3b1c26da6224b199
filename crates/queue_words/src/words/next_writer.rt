// The accesses to the next writer.
ghost use Rattle.std.specs.Prelude.{◌≡◌, if◌then◌else◌, Some, None};
ghost use Rattle.queue_words.specs.Steps.{slot as slot_of, stand, name, is_slot, keep_next_writer, take_if_named};

use super::Words;
use crate::record::Record;
use crate::standing::Standing;

impl Words {
    // W2: the slot becomes the next writer.
    pub(crate) fn name_itself(&mut self, slot: usize, next: Standing)
        ensures { self.new ≡ name (stand self.old slot next) (Some slot) }
    {
        self.stand(slot, next);
        self.next_writer = Some(slot);
    }

    // W4: swaps the next writer for none.
    pub(crate) fn take_next_writer(&mut self, slot: usize, itself: Standing, other: Standing)
        ensures { self.new ≡ name (stand self.old slot (if is_slot slot self.old.next_writer then itself else other)) None }
    {
        if self.next_writer == Some(slot) {
            self.stand(slot, itself);
        } else {
            self.stand(slot, other);
        }
        self.next_writer = None;
    }

    // E5: the slot's next becomes the next writer.
    pub(crate) fn name_next(&mut self, slot: usize, next: Standing)
        ensures { self.new ≡ name (stand self.old slot next) (slot_of self.old slot).next }
    {
        self.next_writer = self.record(slot).next;
        self.stand(slot, next);
    }

    // E7: reads the next writer into w.
    pub(crate) fn keep_next_writer(&mut self, slot: usize, none: Standing, other: Standing)
        ensures { self.new ≡ keep_next_writer self.old slot none other }
    {
        let mut record = self.record(slot);
        record.w = self.next_writer;
        record.standing = match self.next_writer {
            None => none,
            Some(_) => other,
        };
        self.put(slot, record);
    }

    // E9: compares the next writer with w, and stores none where it is.
    pub(crate) fn take_if_named(&mut self, slot: usize, done: Standing, other: Standing)
        ensures { self.new ≡ take_if_named self.old slot (slot_of self.old slot).w done other }
    {
        let w = self.record(slot).w;
        if w.is_some() && self.next_writer == w {
            self.stand(slot, done);
            self.next_writer = None;
        } else {
            self.stand(slot, other);
        }
    }
}
