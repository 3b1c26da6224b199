// Two words, requests and completions, beside the slots' places.
ghost use Rattle.std.specs.Prelude.{◌≡◌};
ghost use Rattle.ticket_words.specs.Steps.{stands_at, kept_by, word_read, written, stepped, called, finished, fresh_words};

use crate::counting::{count_reader, count_writer, lower_half};
use crate::place::Place;
use crate::standing::Standing;
use lock::Class;
use slots::{Slot, Table};

pub mod shown;

#[derive(Clone, Copy)]
pub struct Words {
    requests: u32,
    completions: u32,
    table: Table<Place>,
}

impl Words {
    pub fn fresh() -> Words
        ensures { result ≡ fresh_words }
    {
        Words {
            requests: 0,
            completions: 0,
            table: Table::filled(Place::unused()),
        }
    }

    pub fn standing(&self, slot: Slot) -> Standing
        ensures { result ≡ stands_at self.now slot.index }
    {
        self.table.at(slot).standing
    }

    // The slot's one access, by where it stands together with the word just read.
    pub fn step(&mut self, slot: Slot)
        ensures { self.new ≡ stepped self.old slot.index }
    {
        let Place { standing, kept } = self.table.at(slot);
        match (standing, self.read(standing)) {
            (Standing::T1, requests) => {
                let half = lower_half(requests);
                self.request(slot, Standing::T2, half, count_reader(requests));
            }
            (Standing::T2, completions) if lower_half(completions) == kept => {
                self.stand(slot, Standing::ReaderH);
            }
            (Standing::T2, _) => self.stand(slot, Standing::T2),
            (Standing::T3, completions) => self.complete(slot, count_reader(completions)),
            (Standing::T4, requests) => {
                self.request(slot, Standing::T5, requests, count_writer(requests));
            }
            (Standing::T5, completions) if completions == kept => {
                self.stand(slot, Standing::WriterH);
            }
            (Standing::T5, _) => self.stand(slot, Standing::T5),
            (Standing::T6, completions) => self.complete(slot, count_writer(completions)),
            (Standing::I | Standing::ReaderH | Standing::WriterH, _) => self.stand(slot, standing),
        }
    }

    // The call of an idle slot; of any other it changes nothing. Like the finish it names this lock's own standings, so that
    // one function for all locks would have to be handed the same lines.
    pub fn call(&mut self, slot: Slot, class: Class)
        ensures { self.new ≡ called self.old slot.index class }
    {
        let next = match (self.standing(slot), class) {
            (Standing::I, Class::Reading) => Standing::T1,
            (Standing::I, Class::Writing) => Standing::T4,
            (standing, _) => standing,
        };
        self.stand(slot, next);
    }

    // The end of a hold; of a slot that does not hold it changes nothing.
    pub fn finish(&mut self, slot: Slot)
        ensures { self.new ≡ finished self.old slot.index }
    {
        let next = match self.standing(slot) {
            Standing::ReaderH => Standing::T3,
            Standing::WriterH => Standing::T6,
            standing => standing,
        };
        self.stand(slot, next);
    }

    // The word that a slot's access reads.
    fn read(&self, standing: Standing) -> u32
        ensures { result ≡ word_read standing self.now }
    {
        match standing {
            Standing::T1 | Standing::T4 => self.requests,
            _ => self.completions,
        }
    }

    // The slot stands elsewhere, with what it has kept.
    fn stand(&mut self, slot: Slot, standing: Standing)
        ensures { self.new ≡ written self.old slot.index standing (kept_by self.old slot.index) self.old.requests self.old.completions }
    {
        let Place { standing: _, kept } = self.table.at(slot);
        self.table.put(slot, Place { standing, kept });
    }

    // The slot keeps what it read of the requests, and writes them.
    fn request(&mut self, slot: Slot, standing: Standing, kept: u32, requests: u32)
        ensures { self.new ≡ written self.old slot.index standing kept requests self.old.completions }
    {
        self.table.put(slot, Place { standing, kept });
        self.requests = requests;
    }

    // The slot writes the completions, and is idle.
    fn complete(&mut self, slot: Slot, completions: u32)
        ensures { self.new ≡ written self.old slot.index Standing.I (kept_by self.old slot.index) self.old.requests completions }
    {
        self.stand(slot, Standing::I);
        self.completions = completions;
    }
}
