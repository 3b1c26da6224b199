// Reading and writing: a slot takes a job.
ghost use Rattle.std.specs.Prelude.{◌≡◌, ◌+◌, ◌<◌, slice_set, false, Some};
ghost use Rattle.lock.specs.declared.words.Class.TheVariants.{Writing};
ghost use Rattle.lock.specs.declared.words.Phase.TheVariants.{Idle};
ghost use Rattle.stepper.specs.Calls.{DidRead, DidWrite, claim_on};
ghost use Rattle.stepper.specs.Jobs.{new_job};
ghost use Rattle.stepper.specs.State.{state};

use super::OpenBook;
use super::checks::all_accepted;
use crate::claim::Claim;
use crate::job::Job;
use crate::limits::EACH;
use crate::lists::Lengths;
use entry::Kind;
use lock::{Class, Lock};
use range::Range;
use refusal::Refusal;
use slots::Slot;

impl<L: Lock> OpenBook<L> {
    // A job that copies `count` places from `first` on into the slot's rows.
    pub fn read<K: Kind>(
        &mut self,
        book: &[K::Held],
        rows: &[K::Held],
        givens: &[K::Given],
        slot: usize,
        first: usize,
        count: usize,
    ) -> Result<Claim, Refusal>
        ensures { DidRead L.Lock (state self.old book.now rows.now givens.now) slot first count result (state self.new book.now rows.now givens.now) }
    {
        let slot = self.check_call(Lengths::of(book, rows, givens), slot)?;
        let range = self.check_job(slot, first, count)?;
        self.check_room()?;
        Ok(self.take_on(slot, Class::Reading, range))
    }

    // A job that joins the handed givens into the places from `first` on. They are copied at once, to the slot's
    // part of the lent givens.
    pub fn write<K: Kind>(
        &mut self,
        book: &[K::Held],
        rows: &[K::Held],
        givens: &mut [K::Given],
        slot: usize,
        first: usize,
        handed: &[K::Given],
    ) -> Result<Claim, Refusal>
        ensures { DidWrite L.Lock K.Kind (state self.old book.now rows.now givens.old) slot first handed.now result (state self.new book.now rows.now givens.new) }
    {
        let slot = self.check_call(Lengths::of(book, rows, givens), slot)?;
        let range = self.check_job(slot, first, handed.len())?;
        if !all_accepted::<K>(handed) {
            return Err(Refusal::GivenNotAccepted);
        }
        if self.lock.is_barred(slot) {
            return Err(Refusal::SlotBarred);
        }
        self.check_room()?;
        let start = EACH * slot.index();
        givens[start..start + handed.len()].copy_from_slice(handed);
        Ok(self.take_on(slot, Class::Writing, range))
    }

    // The slot takes the next job, on a range of this book, and calls for the lock, which can't refuse it.
    fn take_on(&mut self, slot: Slot, class: Class, range: Range) -> Claim
        requires idle { L.phases self.old.lock slot.index ≡ Idle }
        requires free { class ≡ Writing → L.bars self.old.lock slot.index ≡ false }
        requires places { range.places ≡ self.old.bare.places }
        requires room { self.old.accepted < 1000000 }
        ensures claim { result ≡ claim_on slot.index (self.old.accepted + 1) }
        ensures kept { (self.new.slots ≡ self.old.slots) × (self.new.bare ≡ self.old.bare) }
        ensures accepted { self.new.accepted ≡ self.old.accepted + 1 }
        ensures jobs { self.new.jobs.slots ≡ slice_set self.old.jobs.slots slot.index (Some (new_job (self.old.accepted + 1) class range.first range.count)) }
        ensures lock { L.calls self.old.lock slot.index class self.new.lock }
    {
        let Ok(()) = self.lock.call(slot, class) else {
            unreachable!()
        };
        let number = self.accepted + 1;
        self.accepted = number;
        self.jobs.put(
            slot,
            Some(Job {
                number,
                class,
                first: range.first(),
                count: range.count(),
                done: 0,
                joined: false,
            }),
        );
        Claim::new(slot.index(), number)
    }
}
