// The accesses to another slot's record: pred's, next's and w's.
ghost use Rattle.std.specs.Prelude.{◌≡◌};
ghost use Rattle.queue_words.specs.Steps.{slot as slot_of, stand, unblock, note, link, by_class, class_at, note_if_alone};
ghost use Rattle.queue_words.specs.declared.record.Successor.TheVariants.{Writer};

use super::Words;
use crate::record::{State, Successor};
use crate::standing::Standing;
use lock::Class;

impl Words {
    // R3, V4: reads the class of another slot, pred or next.
    pub(crate) fn read_class(
        &mut self,
        slot: usize,
        other: Option<usize>,
        reading: Standing,
        writing: Standing,
    )
        ensures { self.new ≡ stand self.old slot (by_class (class_at self.old other) reading writing) }
    {
        match self.class_at(other) {
            Class::Reading => self.stand(slot, reading),
            Class::Writing => self.stand(slot, writing),
        }
    }

    // W6: writes writer into pred's successor class.
    pub(crate) fn note_writer(&mut self, slot: usize, next: Standing)
        ensures { self.new ≡ note (stand self.old slot next) (slot_of self.old slot).pred Writer }
    {
        let pred = self.record(slot).pred;
        self.stand(slot, next);
        self.note(pred, Successor::Writer);
    }

    // R4: compares pred's whole state with (blocked, none), and stores (blocked, reader) where it is.
    pub(crate) fn note_reader(&mut self, slot: usize, done: Standing, other: Standing)
        ensures { self.new ≡ note_if_alone self.old slot (slot_of self.old slot).pred done other }
    {
        let alone = State {
            blocked: true,
            successor: Successor::Nobody,
        };
        match self.record(slot).pred {
            Some(pred) if self.record(pred).state == alone => {
                self.stand(slot, done);
                self.note(Some(pred), Successor::Reader);
            }
            _ => self.stand(slot, other),
        }
    }

    // W7, R5, R8: writes the slot into pred's next.
    pub(crate) fn link_behind(&mut self, slot: usize, next: Standing)
        ensures { self.new ≡ link (stand self.old slot next) (slot_of self.old slot).pred slot }
    {
        let pred = self.record(slot).pred;
        self.stand(slot, next);
        self.link(pred, slot);
    }

    // W5, R9, R13, V6, E10: switches the blocked off of a slot: itself, next or w.
    pub(crate) fn wake(&mut self, slot: usize, woken: Option<usize>, next: Standing)
        ensures { self.new ≡ unblock (stand self.old slot next) woken }
    {
        self.stand(slot, next);
        self.unblock(woken);
    }

    fn class_at(&self, slot: Option<usize>) -> Class
        ensures { result ≡ class_at self.now slot }
    {
        match slot {
            Some(slot) => self.record(slot).class,
            None => Class::Reading,
        }
    }
}
