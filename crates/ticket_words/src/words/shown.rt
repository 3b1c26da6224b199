// What the ticket lock's words are, for whoever shows or compares them.
ghost use Rattle.std.specs.Prelude.{◌≡◌};
ghost use Rattle.ticket_words.specs.Steps.{kept_by};

use super::Words;
use crate::place::Place;
use slots::{Slot, Table};

impl Words {
    pub fn requests(&self) -> u32
        ensures { result ≡ self.now.requests }
    {
        self.requests
    }

    pub fn completions(&self) -> u32
        ensures { result ≡ self.now.completions }
    {
        self.completions
    }

    // The register of a slot.
    pub fn kept(&self, slot: Slot) -> u32
        ensures { result ≡ kept_by self.now slot.index }
    {
        self.table.at(slot).kept
    }

    pub fn places(&self) -> &Table<Place>
        ensures { result.now ≡ self.now.table }
    {
        &self.table
    }
}
