// What calls of an open book try before they change anything.
ghost use Rattle.std.specs.Prelude.{◌≡◌, ◌<◌, Some, None, IfOk, OnOk, MatchResult};
ghost use Rattle.std.specs.List.{list_all};
ghost use Rattle.lock.specs.declared.words.Phase.TheVariants.{Idle};
ghost use Rattle.range.specs.Makings.{Spans};
ghost use Rattle.stepper.specs.Checks.{Tried};
ghost use Rattle.stepper.specs.Jobs.{row_of};
ghost use Rattle.stepper.specs.Lists.{Fit};
ghost use Rattle.stepper.specs.Refusals.{lent_refusal, slot_refusal, room_refusal, is_free};

use super::OpenBook;
use crate::limits::JOBS;
use crate::lists::Lengths;
use entry::Kind;
use lock::Lock;
use range::Range;
use refusal::Refusal;
use slots::Slot;

impl<L: Lock> OpenBook<L> {
    // Every call tries first whether the lists are as long as when opened, and then whether there is such a slot.
    pub(crate) fn check_call(&self, lent: Lengths, slot: usize) -> Result<Slot, Refusal>
        ensures tried { Tried (lent_refusal self.now.bare.places self.now.slots.count lent slot) result }
        ensures fit { OnOk result (Fit self.now.bare.places self.now.slots.count lent) }
        ensures slot { IfOk result (λ s. (s.index ≡ slot) × (slot < self.now.slots.count)) }
    {
        if !lent.fit(self.bare.places, self.slots) {
            return Err(Refusal::ListLength);
        }
        self.slots.get(slot).ok_or(Refusal::NoSuchSlot)
    }

    // A job then tries whether its slot is free, and then whether its places lie inside the book.
    pub(crate) fn check_job(&self, slot: Slot, first: usize, count: usize) -> Result<Range, Refusal>
        ensures tried { Tried (slot_refusal (is_free (row_of self.now.jobs.slots slot.index) (L.phases self.now.lock slot.index)) self.now.bare.places first count) result }
        ensures idle { OnOk result (L.phases self.now.lock slot.index ≡ Idle) }
        ensures range { IfOk result (Spans self.now.bare.places first count) }
    {
        if self.jobs.at(slot).is_some() {
            return Err(Refusal::SlotBusy);
        }
        Range::within(self.bare.places, first, count)
    }

    // Last it tries whether one more job may be accepted.
    pub(crate) fn check_room(&self) -> Result<(), Refusal>
        ensures tried { MatchResult result (λ _. room_refusal self.now.accepted ≡ None) (λ e. room_refusal self.now.accepted ≡ Some e) }
        ensures room { OnOk result (self.now.accepted < 1000000) }
    {
        if self.accepted >= JOBS {
            return Err(Refusal::JobsExhausted);
        }
        Ok(())
    }
}

pub(crate) fn all_accepted<K: Kind>(givens: &[K::Given]) -> bool
    ensures { result ≡ list_all K.Kind.accepted givens.now }
{
    givens.iter().all(|given| K::accepts(*given))
}
