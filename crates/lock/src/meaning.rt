// A lock over at most 32 slots.
ghost use Rattle.std.specs.Prelude.{◌≡◌, ℕ, ◌<◌, Bool};
ghost use Rattle.lock.specs.Meaning.{meant, call_answer, CallsOrRefuses, steps_from, finishes_from, CalledIn, Stepped, Finished};
ghost use Rattle.lock.specs.declared.words.Class.{Class};
ghost use Rattle.lock.specs.declared.words.Phase.{Phase};

use crate::words::{Class, Phase};
use refusal::Refusal;
use slots::{Slot, Slots};

pub trait Lock: Sized {
    // The places in the lock's procedures where a slot can stand.
    type Label: Copy;

    // The meaning: each slot's phase, its job's class, and whether it is barred from writing.
    ghost phases: { Self → ℕ → Phase };

    ghost classes: { Self → ℕ → Class };

    ghost bars: { Self → ℕ → Bool };

    ghost labels: { Self → ℕ → Self.Label };

    // Exactly which words a fresh lock has, and which words each move of a slot leaves.
    ghost opens: { ℕ → Self → Type 0 };

    ghost calls: { Self → ℕ → Class → Self → Type 0 };

    ghost steps: { Self → ℕ → Self → Type 0 };

    ghost finishes: { Self → ℕ → Self → Type 0 };

    fn fresh(slots: Slots) -> Self
        ensures { opens slots.count result };

    fn phase(&self, slot: Slot) -> Phase
        ensures { result ≡ phases self.now slot.index };

    fn class(&self, slot: Slot) -> Class
        ensures { result ≡ classes self.now slot.index };

    fn label(&self, slot: Slot) -> Self::Label
        ensures { result ≡ labels self.now slot.index };

    fn is_barred(&self, slot: Slot) -> bool
        ensures { result ≡ bars self.now slot.index };

    // Where the slot stands.
    fn stand(&self, slot: Slot) -> (Phase, Self::Label)
        ensures { result ≡ (phases self.now slot.index, labels self.now slot.index) }
    {
        (self.phase(slot), self.label(slot))
    }

    // A slot calls for the lock. A refusal changes nothing.
    fn call(&mut self, slot: Slot, class: Class) -> Result<(), Refusal>
        ensures answer { result ≡ call_answer (phases self.old slot.index) class (bars self.old slot.index) }
        ensures left { CallsOrRefuses result (calls self.old slot.index class self.new) (self.new ≡ self.old) };

    // One memory access of a slot that was called, waits or leaves; the step of any other changes nothing.
    fn step(&mut self, slot: Slot) -> (Phase, Self::Label)
        ensures answer { result ≡ (phases self.new slot.index, labels self.new slot.index) }
        ensures left { steps_from (phases self.old slot.index) (steps self.old slot.index self.new) (self.new ≡ self.old) };

    // The end of a hold; of a slot that does not hold, it changes nothing.
    fn finish(&mut self, slot: Slot) -> (Phase, Self::Label)
        ensures answer { result ≡ (phases self.new slot.index, labels self.new slot.index) }
        ensures left { finishes_from (phases self.old slot.index) (finishes self.old slot.index self.new) (self.new ≡ self.old) };

    // The five points: what the moves of a slot mean.
    ghost opened: { (n : ℕ) (s : Self) → opens n s → (j : ℕ) → phases s j ≡ Phase.Idle };

    ghost called: { (s : Self) (i : ℕ) (c : Class) (t : Self) → i < 32 → calls s i c t → CalledIn (meant phases classes bars s) i c (meant phases classes bars t) };

    ghost stepped: { (s : Self) (i : ℕ) (t : Self) → i < 32 → steps s i t → Stepped (meant phases classes bars s) i (meant phases classes bars t) };

    ghost finished: { (s : Self) (i : ℕ) (t : Self) → i < 32 → finishes s i t → Finished (meant phases classes bars s) i (meant phases classes bars t) };
}
