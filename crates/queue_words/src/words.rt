// Tail, next writer and reader count, beside the slots' records. Slots are bare numbers here, as the links from record to
// record are; a slot that there is not is one that has never had a job.
ghost use Rattle.std.specs.Prelude.{◌≡◌};
ghost use Rattle.queue_words.specs.Steps.{stands_at, stepped, called, finished, fresh_words};

use crate::record::Record;
use crate::record::Successor::{Reader, Writer};
use crate::standing::Standing;
use lock::Class;
use slots::Table;

pub mod bar;
pub mod next_writer;
pub mod others;
pub mod own;
pub mod records;
pub mod shared;
pub mod shown;

#[derive(Clone, Copy)]
pub struct Words {
    tail: Option<usize>,
    next_writer: Option<usize>,
    reader_count: u32,
    table: Table<Record>,
}

impl Words {
    pub fn fresh() -> Words
        ensures { result ≡ fresh_words }
    {
        Words {
            tail: None,
            next_writer: None,
            reader_count: 0,
            table: Table::filled(Record::unused()),
        }
    }

    pub fn standing(&self, slot: usize) -> Standing
        ensures { result ≡ stands_at self.now slot }
    {
        self.record(slot).standing
    }

    // The call of an idle slot; of any other it changes nothing. Like the finish it names this lock's own standings, so that
    // one function for all locks would have to be handed the same lines.
    pub fn call(&mut self, slot: usize, class: Class)
        ensures { self.new ≡ called self.old slot class }
    {
        let next = match (self.standing(slot), class) {
            (Standing::I, Class::Reading) => Standing::R1,
            (Standing::I, Class::Writing) => Standing::W1,
            (standing, _) => standing,
        };
        self.stand(slot, next);
    }

    // The end of a hold; of a slot that does not hold it changes nothing.
    pub fn finish(&mut self, slot: usize)
        ensures { self.new ≡ finished self.old slot }
    {
        let next = match self.standing(slot) {
            Standing::ReaderH => Standing::E1,
            Standing::WriterH => Standing::V1,
            standing => standing,
        };
        self.stand(slot, next);
    }

    // The slot's one access, by where it stands; each arm names where the slot stands next. A match, and no table of
    // functions: it is read beside the published procedures, label by label.
    pub fn step(&mut self, slot: usize)
        ensures { self.new ≡ stepped self.old slot }
    {
        let Record {
            standing,
            next,
            pred,
            w,
            ..
        } = self.record(slot);
        match standing {
            Standing::I | Standing::WriterH | Standing::ReaderH => {}
            Standing::W1 => self.swap_tail(slot, Class::Writing, Standing::W2, Standing::W6),
            Standing::W2 => self.name_itself(slot, Standing::W3),
            Standing::W3 => self.read_count(slot, Standing::W4, Standing::W8),
            Standing::W4 => self.take_next_writer(slot, Standing::W5, Standing::W8),
            Standing::W5 => self.wake(slot, Some(slot), Standing::W8),
            Standing::W6 => self.note_writer(slot, Standing::W7),
            Standing::W7 => self.link_behind(slot, Standing::W8),
            Standing::W8 => self.read_blocked(slot, Standing::W8, Standing::WriterH),
            Standing::V1 => self.read_next(slot, Standing::V2, Standing::V3),
            Standing::V2 => self.release_tail(slot, Standing::I, Standing::V3),
            Standing::V3 => self.read_next(slot, Standing::V3, Standing::V4),
            Standing::V4 => self.read_class(slot, next, Standing::V5, Standing::V6),
            Standing::V5 => self.count_in(slot, Standing::V6),
            Standing::V6 => self.wake(slot, next, Standing::I),
            Standing::R1 => self.swap_tail(slot, Class::Reading, Standing::R2, Standing::R3),
            Standing::R2 => self.count_in(slot, Standing::R9),
            Standing::R3 => self.read_class(slot, pred, Standing::R4, Standing::R5),
            Standing::R4 => self.note_reader(slot, Standing::R5, Standing::R7),
            Standing::R5 => self.link_behind(slot, Standing::R6),
            Standing::R6 => self.read_blocked(slot, Standing::R6, Standing::R10),
            Standing::R7 => self.count_in(slot, Standing::R8),
            Standing::R8 => self.link_behind(slot, Standing::R9),
            Standing::R9 => self.wake(slot, Some(slot), Standing::R10),
            Standing::R10 => self.read_successor(slot, Reader, Standing::R11, Standing::ReaderH),
            Standing::R11 => self.read_next(slot, Standing::R11, Standing::R12),
            Standing::R12 => self.count_in(slot, Standing::R13),
            Standing::R13 => self.wake(slot, next, Standing::ReaderH),
            Standing::E1 => self.read_next(slot, Standing::E2, Standing::E3),
            Standing::E2 => self.release_tail(slot, Standing::E6, Standing::E3),
            Standing::E3 => self.read_next(slot, Standing::E3, Standing::E4),
            Standing::E4 => self.read_successor(slot, Writer, Standing::E5, Standing::E6),
            Standing::E5 => self.name_next(slot, Standing::E6),
            Standing::E6 => self.count_out(slot, Standing::E7, Standing::I),
            Standing::E7 => self.keep_next_writer(slot, Standing::I, Standing::E8),
            Standing::E8 => self.read_count(slot, Standing::E9, Standing::I),
            Standing::E9 => self.take_if_named(slot, Standing::E10, Standing::I),
            Standing::E10 => self.wake(slot, w, Standing::I),
        }
    }
}
