// One of the 32 slots that any lock has at most. Who has a Slot needs no test of its index.
ghost use Rattle.std.specs.Prelude.{◌≡◌, ◌<◌, ◌≤◌, MatchOption};

// The most slots.
pub const MOST: usize = 32;

#[derive(Clone, Copy)]
pub struct Slot {
    index: usize,
    ghost within: { index < 32 },
}

impl Slot {
    pub fn new(index: usize) -> Option<Slot>
        ensures { MatchOption result (32 ≤ index) (λ s. s.index ≡ index) }
    {
        if index < MOST {
            Some(Slot { index })
        } else {
            None
        }
    }

    pub fn index(self) -> usize
        ensures { result ≡ self.index }
    {
        self.index
    }
}
