// What a lock shows of itself.
ghost use Rattle.std.specs.Prelude.{◌≡◌, ℕ, List, IfOk, string_bytes};

use lock::Lock;
use slots::Slot;
use std::alloc::{AllocError, Global};

pub trait Shown: Lock {
    // A slot's label, all shared words, and the slot's register where the lock has registers.
    ghost shows: { Self → ℕ → List ℕ };

    // The shared words and the registers, mixed into one number.
    ghost sums: { Self → ℕ };

    fn show(&self, heap: Global, slot: Slot) -> Result<String, AllocError>
        ensures { IfOk result (λ s. string_bytes s ≡ shows self.now slot.index) };

    fn checksum(&self) -> u32
        ensures { result ≡ sums self.now };
}
