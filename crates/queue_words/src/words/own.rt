// The accesses to the slot's own record. Each reads one word, and what it reads is all in which these functions differ.
ghost use Rattle.std.specs.Prelude.{◌≡◌, if◌then◌else◌};
ghost use Rattle.queue_words.specs.Steps.{slot as slot_of, stand, is_none, is_behind};

use super::Words;
use crate::record::Successor;
use crate::standing::Standing;

impl Words {
    // R11, E1, E3, V1, V3: reads the own next.
    pub(crate) fn read_next(&mut self, slot: usize, none: Standing, other: Standing)
        ensures { self.new ≡ stand self.old slot (if is_none (slot_of self.old slot).next then none else other) }
    {
        match self.record(slot).next {
            None => self.stand(slot, none),
            Some(_) => self.stand(slot, other),
        }
    }

    // W8, R6: reads the own blocked.
    pub(crate) fn read_blocked(&mut self, slot: usize, on: Standing, off: Standing)
        ensures { self.new ≡ stand self.old slot (if (slot_of self.old slot).state.blocked then on else off) }
    {
        if self.record(slot).state.blocked {
            self.stand(slot, on);
        } else {
            self.stand(slot, off);
        }
    }

    // R10, E4: reads the own successor class.
    pub(crate) fn read_successor(
        &mut self,
        slot: usize,
        wanted: Successor,
        there: Standing,
        other: Standing,
    )
        ensures { self.new ≡ stand self.old slot (if is_behind wanted (slot_of self.old slot).state.successor then there else other) }
    {
        if self.record(slot).state.successor == wanted {
            self.stand(slot, there);
        } else {
            self.stand(slot, other);
        }
    }
}
