// What makes a lock of words beside a line: what the moves do to the words, and what ties the words to the line.
ghost use Rattle.std.specs.Prelude.{◌≡◌, ℕ, ◌<◌, ◌≤◌, Bool, false, List, [], length};
ghost use Rattle.lock.specs.Line.{arrives, without, Turn};
ghost use Rattle.lock.specs.Meaning.{meant, steps_from, CalledIn, Stepped, Finished};
ghost use Rattle.lock.specs.declared.words.Class.{Class};
ghost use Rattle.lock.specs.declared.words.Class.TheVariants.{Writing};
ghost use Rattle.lock.specs.declared.words.Phase.{Phase};
ghost use Rattle.lock.specs.declared.words.Phase.TheVariants.{Idle, Holds};

use lock::{Class, Phase};
use slots::Slot;

pub trait Procedures<W> {
    // The places in the procedures where a slot can stand.
    type Label: Copy;

    // What the words mean: each slot's phase, its job's class, whether it is barred from writing, and its label.
    ghost phases: { W → ℕ → Phase };

    ghost classes: { W → ℕ → Class };

    ghost bars: { W → ℕ → Bool };

    ghost labels: { W → ℕ → Self.Label };

    // Exactly which words there are at first, and after each move of a slot.
    ghost begun: { W };

    ghost called: { W → ℕ → Class → W };

    ghost stepped: { W → ℕ → W };

    ghost finished: { W → ℕ → W };

    // What ties the words to the line; it has one proof at most.
    ghost keeps: { W → List ℕ → Type 0 };

    ghost keeps_once: { (w : W) (l : List ℕ) → IsProp (keeps w l) };

    fn begin() -> W
        ensures { result ≡ begun };

    fn phase(words: &W, slot: Slot) -> Phase
        ensures { result ≡ phases words.now slot.index };

    fn class(words: &W, slot: Slot) -> Class
        ensures { result ≡ classes words.now slot.index };

    fn label(words: &W, slot: Slot) -> Self::Label
        ensures { result ≡ labels words.now slot.index };

    fn is_barred(words: &W, slot: Slot) -> bool
        ensures { result ≡ bars words.now slot.index };

    fn call(words: &mut W, slot: Slot, class: Class)
        ensures { words.new ≡ called words.old slot.index class };

    fn step(words: &mut W, slot: Slot)
        ensures { words.new ≡ stepped words.old slot.index };

    fn finish(words: &mut W, slot: Slot)
        ensures { words.new ≡ finished words.old slot.index };

    // At first nobody stands in line, and a line has 32 slots at most.
    ghost keeps_begun: { keeps begun [] };

    ghost keeps_few: { (w : W) (l : List ℕ) → keeps w l → length l ≤ 32 };

    // Each move keeps the words tied to the line.
    ghost keeps_called: { (w : W) (l : List ℕ) (i : ℕ) (c : Class) → keeps w l → i < 32 → phases w i ≡ Idle → (c ≡ Writing → bars w i ≡ false) → keeps (called w i c) l };

    ghost keeps_stepped: { (w : W) (l : List ℕ) (i : ℕ) → keeps w l → i < 32 → steps_from (phases w i) (Unit {0}) ⊥ → keeps (stepped w i) (arrives (phases w i) i l) };

    ghost keeps_finished: { (w : W) (l : List ℕ) (i : ℕ) → keeps w l → i < 32 → phases w i ≡ Holds → keeps (finished w i) (without i l) };

    // What the moves mean, while the words are tied to a line.
    ghost means_begun: { (i : ℕ) → phases begun i ≡ Idle };

    ghost means_called: { (w : W) (l : List ℕ) (i : ℕ) (c : Class) → keeps w l → i < 32 → phases w i ≡ Idle → (c ≡ Writing → bars w i ≡ false) → CalledIn (meant phases classes bars w) i c (meant phases classes bars (called w i c)) };

    ghost means_stepped: { (w : W) (l : List ℕ) (i : ℕ) → keeps w l → i < 32 → steps_from (phases w i) (Unit {0}) ⊥ → Stepped (meant phases classes bars w) i (meant phases classes bars (stepped w i)) };

    ghost means_finished: { (w : W) (l : List ℕ) (i : ℕ) → keeps w l → i < 32 → phases w i ≡ Holds → Finished (meant phases classes bars w) i (meant phases classes bars (finished w i)) };

    // A slot that begins to hold does so in its turn.
    ghost in_turn: { (w : W) (l : List ℕ) (i : ℕ) → keeps w l → i < 32 → steps_from (phases w i) (Unit {0}) ⊥ → phases (stepped w i) i ≡ Holds → Turn (classes w i) (classes w) i (arrives (phases w i) i l) };
}
