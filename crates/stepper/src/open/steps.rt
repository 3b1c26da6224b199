// One step of a slot: a memory access of its lock, or a piece of work of its job.
ghost use Rattle.std.specs.Prelude.{◌≡◌, ◌≢◌, ◌<◌, Some, None, slice_set};
ghost use Rattle.lock.specs.declared.words.Phase.TheVariants.{Holds};
ghost use Rattle.range.specs.Makings.{Spans};
ghost use Rattle.stepper.specs.Jobs.{row_of, Sound};
ghost use Rattle.stepper.specs.Lists.{lengths_of, Fit};
ghost use Rattle.stepper.specs.State.{state};
ghost use Rattle.stepper.specs.Steps.{DidStep, HoldWorks, Passes, passed_jobs, is_last};

use super::OpenBook;
use crate::job::Job;
use crate::limits::EACH;
use crate::lists::Lengths;
use entry::Kind;
use lock::{Class, Lock, Phase};
use range::Range;
use refusal::Refusal;
use slots::Slot;

impl<L: Lock> OpenBook<L> {
    // Answers the slot's phase and the label where it now stands.
    pub fn step<K: Kind>(
        &mut self,
        book: &mut [K::Held],
        rows: &mut [K::Held],
        givens: &[K::Given],
        slot: usize,
    ) -> Result<(Phase, L::Label), Refusal>
        ensures { DidStep L.Lock K.Kind (state self.old book.old rows.old givens.now) slot result (state self.new book.new rows.new givens.now) }
    {
        let slot = self.check_call(Lengths::of(book, rows, givens), slot)?;
        Ok(match self.lock.phase(slot) {
            Phase::Idle => self.lock.stand(slot),
            Phase::Called | Phase::Waits | Phase::Leaves => self.lock.step(slot),
            Phase::Holds => self.work::<K>(book, rows, givens, slot),
        })
    }

    // One piece of work of a slot that holds.
    fn work<K: Kind>(
        &mut self,
        book: &mut [K::Held],
        rows: &mut [K::Held],
        givens: &[K::Given],
        slot: Slot,
    ) -> (Phase, L::Label)
        requires fit { Fit self.old.bare.places self.old.slots.count (lengths_of book.old rows.old givens.now) }
        requires slot { slot.index < self.old.slots.count }
        requires holds { L.phases self.old.lock slot.index ≡ Holds }
        ensures answer { result ≡ (L.phases self.new.lock slot.index, L.labels self.new.lock slot.index) }
        ensures left { HoldWorks L.Lock K.Kind (state self.old book.old rows.old givens.now) slot.index (row_of self.old.jobs.slots slot.index) (state self.new book.new rows.new givens.now) }
    {
        // A slot that holds has a job.
        let (job, range) = self.job_of(slot);
        let place = range.first() + job.done;
        let own = EACH * slot.index() + job.done;
        match (job.class, job.joined) {
            (Class::Reading, _) => {
                rows[own] = book[place];
                self.pass(slot, job)
            }
            (Class::Writing, false) => {
                rows[own] = K::join(book[place], givens[own]);
                let joined = Job {
                    joined: true,
                    ..job
                };
                self.goes_on(slot, joined)
            }
            (Class::Writing, true) => {
                book[place] = rows[own];
                self.pass(slot, job)
            }
        }
    }

    // The slot's job, and its places, which lie inside the book as those of each job do.
    fn job_of(&self, slot: Slot) -> (Job, Range)
        requires { row_of self.now.jobs.slots slot.index ≢ None }
        ensures row { row_of self.now.jobs.slots slot.index ≡ Some result.0 }
        ensures next { result.0.done < result.1.count }
        ensures range { Spans self.now.bare.places result.0.first result.0.count result.1 }
    {
        let Some(job) = self.jobs.at(slot) else {
            unreachable!()
        };
        let Ok(range) = Range::within(self.bare.places, job.first, job.count) else {
            unreachable!()
        };
        (job, range)
    }

    // The slot's place is done. After the last one the hold is finished.
    fn pass(&mut self, slot: Slot, job: Job) -> (Phase, L::Label)
        requires holds { L.phases self.old.lock slot.index ≡ Holds }
        requires row { row_of self.old.jobs.slots slot.index ≡ Some job }
        ensures answer { result ≡ (L.phases self.new.lock slot.index, L.labels self.new.lock slot.index) }
        ensures kept { (self.new.slots ≡ self.old.slots) × (self.new.bare ≡ self.old.bare) × (self.new.accepted ≡ self.old.accepted) }
        ensures jobs { self.new.jobs.slots ≡ passed_jobs self.old.jobs.slots slot.index job }
        ensures lock { Passes L.Lock (is_last job) self.old.lock slot.index self.new.lock }
    {
        if job.done + 1 == job.count {
            return self.lock.finish(slot);
        }
        let next = Job {
            done: job.done + 1,
            joined: false,
            ..job
        };
        self.goes_on(slot, next)
    }

    // The slot still holds, with its job as it is now.
    fn goes_on(&mut self, slot: Slot, job: Job) -> (Phase, L::Label)
        requires { Sound self.old.bare.places job }
        ensures answer { result ≡ (L.phases self.new.lock slot.index, L.labels self.new.lock slot.index) }
        ensures kept { (self.new.slots ≡ self.old.slots) × (self.new.bare ≡ self.old.bare) × (self.new.accepted ≡ self.old.accepted) }
        ensures jobs { self.new.jobs.slots ≡ slice_set self.old.jobs.slots slot.index (Some job) }
        ensures lock { self.new.lock ≡ self.old.lock }
    {
        self.jobs.put(slot, Some(job));
        self.lock.stand(slot)
    }
}
