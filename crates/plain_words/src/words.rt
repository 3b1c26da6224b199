// The lock's one word, and where each slot stands.
ghost use Rattle.std.specs.Prelude.{◌≡◌};
ghost use Rattle.plain_words.specs.Words.{fresh_words, stands, moved, stepped, called, finished};

use crate::places::Standing;
use lock::Class;
use slots::{Slot, Table};

pub mod shown;

// The word counts readers by twos, and its bit 0 is a writer's.
#[derive(Clone, Copy)]
pub struct Words {
    word: u32,
    table: Table<Standing>,
}

impl Words {
    pub fn fresh() -> Words
        ensures { result ≡ fresh_words }
    {
        Words {
            word: 0,
            table: Table::filled(Standing::I),
        }
    }

    pub fn at(&self, slot: Slot) -> Standing
        ensures { result ≡ stands self.now slot.index }
    {
        self.table.at(slot)
    }

    // An idle slot goes to the first place of its class; any other stays. Like the finish it names this lock's own standings,
    // so that one function for all locks would have to be handed the same lines.
    pub fn call(&mut self, slot: Slot, class: Class)
        ensures { self.new ≡ called self.old slot.index class }
    {
        let next = match (self.at(slot), class) {
            (Standing::I, Class::Reading) => Standing::P1,
            (Standing::I, Class::Writing) => Standing::P4,
            (at, _) => at,
        };
        self.put(slot, next, self.word);
    }

    // One access to the word, by where the slot stands together with the word just read.
    pub fn step(&mut self, slot: Slot)
        ensures { self.new ≡ stepped self.old slot.index }
    {
        let (next, word) = match (self.at(slot), self.word) {
            (Standing::P1, w) => (Standing::P2, w.wrapping_add(2)),
            (Standing::P2, w) if w % 2 == 0 => (Standing::ReaderH, w),
            (Standing::P2, w) => (Standing::P2, w),
            (Standing::P3, w) => (Standing::I, w.wrapping_sub(2)),
            (Standing::P4 | Standing::P4Again, 0) => (Standing::WriterH, 1),
            (Standing::P4 | Standing::P4Again, w) => (Standing::P4Again, w),
            (Standing::P5, w) => (Standing::I, w.wrapping_sub(1)),
            (at @ (Standing::I | Standing::ReaderH | Standing::WriterH), w) => (at, w),
        };
        self.put(slot, next, word);
    }

    // A slot that holds begins to leave; any other stays.
    pub fn finish(&mut self, slot: Slot)
        ensures { self.new ≡ finished self.old slot.index }
    {
        let next = match self.at(slot) {
            Standing::ReaderH => Standing::P3,
            Standing::WriterH => Standing::P5,
            at => at,
        };
        self.put(slot, next, self.word);
    }

    // The slot goes on to a place, and the word is written.
    fn put(&mut self, slot: Slot, at: Standing, word: u32)
        ensures { self.new ≡ moved self.old slot.index at word }
    {
        self.table.put(slot, at);
        self.word = word;
    }
}
