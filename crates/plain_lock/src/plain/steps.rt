// The moves of the plain lock's slots, and what they mean.
ghost use Rattle.std.proofs.Common.{ap, ◌∙◌, rules};
ghost use Rattle.plain_lock.specs.Moves.{phases, classes, bars, labels, Opens, Calls, Steps, Finishes};
ghost use Rattle.plain_words.specs.Places.{phase_of};
ghost use Rattle.plain_words.specs.Words.{stands};
ghost use Rattle.plain_lock.specs.Laws.{step_means, finish_means};
ghost use Rattle.plain_words.specs.declared.places.Standing.TheVariants.{I};
ghost use Rattle.slots.specs.Tables.{all_alike};

use super::PlainLock;
use lock::{Class, Lock, Phase};
use plain_words::{Label, Words};
use refusal::Refusal;
use slots::{Slot, Slots};

impl Lock for PlainLock {
    type Label = Label;

    ghost phases = { phases };

    ghost classes = { classes };

    ghost bars = { bars };

    ghost labels = { labels };

    ghost opens = { Opens };

    ghost calls = { Calls };

    ghost steps = { Steps };

    ghost finishes = { Finishes };

    ghost opened = { λ n s o j. ap (λ w. phase_of (stands w j)) o ∙ ap phase_of (all_alike I 32 j) };

    ghost called = { Prim.search rules };

    ghost stepped = { step_means };

    ghost finished = { finish_means };

    fn fresh(_slots: Slots) -> PlainLock {
        PlainLock {
            words: Words::fresh(),
        }
    }

    fn phase(&self, slot: Slot) -> Phase {
        self.words.at(slot).phase()
    }

    fn class(&self, slot: Slot) -> Class {
        self.words.at(slot).class()
    }

    fn label(&self, slot: Slot) -> Label {
        self.words.at(slot).label()
    }

    fn is_barred(&self, _slot: Slot) -> bool {
        false
    }

    fn call(&mut self, slot: Slot, class: Class) -> Result<(), Refusal> {
        match self.words.at(slot).phase() {
            Phase::Idle => {
                let mut words = self.words;
                words.call(slot, class);
                *self = PlainLock { words };
                Ok(())
            }
            Phase::Called | Phase::Waits | Phase::Holds | Phase::Leaves => {
                Err(Refusal::SlotBusy)
            }
        }
    }

    fn step(&mut self, slot: Slot) -> (Phase, Label) {
        let mut words = self.words;
        words.step(slot);
        *self = PlainLock { words };
        self.stand(slot)
    }

    fn finish(&mut self, slot: Slot) -> (Phase, Label) {
        let mut words = self.words;
        words.finish(slot);
        *self = PlainLock { words };
        self.stand(slot)
    }
}
