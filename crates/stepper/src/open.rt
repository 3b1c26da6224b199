// The open book: the lock by value beside the jobs. Its calls take the three lists one by one, since each borrows them
// differently: one struct of them would ask `&mut` of a list that a call only reads.
ghost use Rattle.std.specs.Prelude.{◌≡◌, length};
ghost use Rattle.stepper.specs.Jobs.{AllSound, AllTaken};

use crate::bare::BareBook;
use crate::job::Job;
use lock::Lock;
use slots::{Slots, Table};

mod asks;
mod checks;
mod making;
mod steps;

#[derive(Drop)]
pub struct OpenBook<L: Lock> {
    slots: Slots,
    // The bare book that was opened. It says how many places there are.
    bare: BareBook,
    accepted: u32,
    jobs: Table<Option<Job>>,
    lock: L,
    // A proof knows the length of the table's array by this alone.
    ghost full: { length jobs.slots ≡ 32 },
    ghost sound: { AllSound bare.places jobs.slots },
    ghost taken: { AllTaken (L.phases lock) jobs.slots },
}
