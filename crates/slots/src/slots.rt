// How many slots there are: 1 to 32, numbered from 0.
ghost use Rattle.std.specs.Prelude.{◌≡◌, ◌<◌, ◌≤◌, MatchOption};

use crate::slot::{MOST, Slot};

#[derive(Clone, Copy)]
pub struct Slots {
    count: usize,
    ghost some: { 1 ≤ count },
    ghost few: { count ≤ 32 },
}

impl Slots {
    pub fn new(count: usize) -> Option<Slots>
        ensures { MatchOption result ((1 ≤ count) × (count ≤ 32) → ⊥) (λ s. s.count ≡ count) }
    {
        if (1..=MOST).contains(&count) {
            Some(Slots { count })
        } else {
            None
        }
    }

    pub fn count(self) -> usize
        ensures { result ≡ self.count }
    {
        self.count
    }

    // The slot of this number, if there is one.
    pub fn get(self, index: usize) -> Option<Slot>
        ensures { MatchOption result (self.count ≤ index) (λ s. (s.index ≡ index) × (index < self.count)) }
    {
        if index < self.count {
            Slot::new(index)
        } else {
            None
        }
    }
}
