// The right to collect one job. It is neither copied nor let go silently.
ghost use Rattle.std.specs.Prelude.{◌≡◌};

pub struct Claim {
    slot: usize,
    number: u32,
}

impl Claim {
    pub(crate) fn new(slot: usize, number: u32) -> Claim
        ensures { (result.slot ≡ slot) × (result.number ≡ number) }
    {
        Claim { slot, number }
    }

    pub fn slot(&self) -> usize
        ensures { result ≡ self.now.slot }
    {
        self.slot
    }

    pub fn number(&self) -> u32
        ensures { result ≡ self.now.number }
    {
        self.number
    }

    // Gives the right up for good, and answers which job it was for.
    pub fn give_up(self) -> (usize, u32)
        ensures { result ≡ (self.slot, self.number) }
    {
        let Claim { slot, number } = self;
        (slot, number)
    }
}
