// A row for each slot. No ghost field says that there are 32 rows: the definitions of words make tables by equation, and each
// would have to make that proof too.
ghost use Rattle.std.specs.Prelude.{◌≡◌, ◌≤◌, length, replicate, slice_index_or, slice_set, MatchOption};

use crate::slot::{MOST, Slot};

#[derive(Clone, Copy)]
pub struct Table<T> {
    slots: [T; MOST],
}

impl<T: Copy> Table<T> {
    // Every slot has the same row.
    pub fn filled(row: T) -> Table<T>
        ensures { result.slots ≡ replicate 32 row }
    {
        Table { slots: [row; MOST] }
    }

    // The slot of this number, if the table has a row for it.
    pub fn slot(&self, index: usize) -> Option<Slot>
        ensures { MatchOption result (length self.now.slots ≤ index) (λ s. s.index ≡ index) }
    {
        Slot::new(index)
    }

    pub fn at(&self, slot: Slot) -> T
        ensures { (d : T) → result ≡ slice_index_or self.now.slots slot.index d }
    {
        self.rows()[slot.index()]
    }

    // No other slot's row changes.
    pub fn put(&mut self, slot: Slot, row: T)
        ensures { self.new.slots ≡ slice_set self.old.slots slot.index row }
    {
        self.slots[slot.index()] = row;
    }

    // The rows in the order of the slots.
    pub fn rows(&self) -> &[T; MOST]
        ensures { result.now ≡ self.now.slots }
    {
        &self.slots
    }
}
