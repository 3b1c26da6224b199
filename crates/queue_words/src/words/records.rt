// The slots' records, read and written. A write to a slot that there is not changes nothing. The writers differ in the field
// that they write; a closure handed to one function would be that same line.
ghost use Rattle.std.specs.Prelude.{◌≡◌};
ghost use Rattle.queue_words.specs.Steps.{slot as slot_of, put, stand, unblock, note, link};

use super::Words;
use crate::record::{Record, Successor};
use crate::standing::Standing;

impl Words {
    // A slot's record, with its registers.
    pub fn record(&self, slot: usize) -> Record
        ensures { result ≡ slot_of self.now slot }
    {
        match self.table.slot(slot) {
            Some(slot) => self.table.at(slot),
            None => Record::unused(),
        }
    }

    pub(crate) fn put(&mut self, slot: usize, record: Record)
        ensures { self.new ≡ put self.old slot «record» }
    {
        if let Some(slot) = self.table.slot(slot) {
            self.table.put(slot, record);
        }
    }

    pub(crate) fn stand(&mut self, slot: usize, standing: Standing)
        ensures { self.new ≡ stand self.old slot standing }
    {
        let mut record = self.record(slot);
        record.standing = standing;
        self.put(slot, record);
    }

    // Writes only the blocked half of the state word.
    pub(crate) fn unblock(&mut self, slot: Option<usize>)
        ensures { self.new ≡ unblock self.old slot }
    {
        if let Some(slot) = slot {
            let mut record = self.record(slot);
            record.state.blocked = false;
            self.put(slot, record);
        }
    }

    // Writes only the successor half of the state word.
    pub(crate) fn note(&mut self, slot: Option<usize>, successor: Successor)
        ensures { self.new ≡ note self.old slot successor }
    {
        if let Some(slot) = slot {
            let mut record = self.record(slot);
            record.state.successor = successor;
            self.put(slot, record);
        }
    }

    pub(crate) fn link(&mut self, slot: Option<usize>, next: usize)
        ensures { self.new ≡ link self.old slot next }
    {
        if let Some(slot) = slot {
            let mut record = self.record(slot);
            record.next = Some(next);
            self.put(slot, record);
        }
    }
}
