// The bar: whom a leaving reader might still wake may not queue anew to write.
ghost use Rattle.std.specs.Prelude.{◌≡◌};
ghost use Rattle.queue_words.specs.Bar.{asks_for, barred};

use super::Words;
use crate::standing::Standing;

impl Words {
    // A loop and no `any`: of `any` over a range the library tells by runs of its iterator, from which the proof did not close.
    pub fn is_barred(&self, slot: usize) -> bool
        ensures { result ≡ barred self.now slot }
    {
        for other in 0..32 {
            if self.asks_for(slot, other) {
                return true;
            }
        }
        false
    }

    fn asks_for(&self, slot: usize, other: usize) -> bool
        ensures { result ≡ asks_for self.now slot other }
    {
        let record = self.record(other);
        match (record.standing, record.w) {
            (Standing::E8 | Standing::E9, Some(w)) => other != slot && w == slot,
            _ => false,
        }
    }
}
