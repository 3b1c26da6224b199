// What the lock keeps of a slot.
ghost use Rattle.std.specs.Prelude.{◌≡◌};
ghost use Rattle.ticket_words.specs.Places.{unused};

use crate::standing::Standing;

// Where the slot stands, and the half or the word that it has kept.
#[derive(Clone, Copy)]
pub struct Place {
    pub standing: Standing,
    pub kept: u32,
}

impl Place {
    // The place of a slot that has had no job.
    pub fn unused() -> Place
        ensures { result ≡ unused }
    {
        Place {
            standing: Standing::I,
            kept: 0,
        }
    }
}
