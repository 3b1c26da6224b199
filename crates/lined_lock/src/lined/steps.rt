// What the lock does at each move.
ghost use Rattle.std.specs.Prelude.{◌≡◌, false};
ghost use Rattle.std.proofs.Common.{sym, ap, ◌∙◌, subst};
ghost use Rattle.line_table.specs.Lines.{in_line};
ghost use Rattle.lock.specs.Line.{Arrived};
ghost use Rattle.lock.specs.Meaning.{meant, CalledIn, Stepped, Finished};
ghost use Rattle.lock.specs.declared.words.Class.TheVariants.{Writing};
ghost use Rattle.lock.specs.declared.words.Phase.TheVariants.{Idle, Called, Holds};
ghost use Rattle.lined_lock.specs.Lock.{phases, classes, bars, labels, Opens, Calls, Steps, Finishes};

use super::LinedLock;
use crate::words::Procedures;
use line_table::Line;
use lock::{Class, Lock, Phase};
use refusal::Refusal;
use slots::{Slot, Slots};
use std::marker::PhantomData;

// Each move makes new words and a new line, and writes the lock whole, as the two change together under the invariant.
impl<P: Procedures<W>, W: Copy> LinedLock<P, W> {
    // The lock is written whole, where such words are tied to such a line.
    fn rewrite(&mut self, words: W, line: Line)
        requires { P.keeps words (in_line line) }
        ensures words { self.new.words ≡ words }
        ensures line { self.new.line ≡ line }
    {
        *self = LinedLock {
            words,
            line,
            of: PhantomData,
        };
    }

    // The call of an idle slot, not barred if it is to write.
    fn take_in(&mut self, slot: Slot, class: Class)
        requires { (phases self.old slot.index ≡ Idle) × (class ≡ Writing → bars self.old slot.index ≡ false) }
        ensures { Calls self.old slot.index class self.new }
    {
        let mut words = self.words;
        P::call(&mut words, slot, class);
        self.rewrite(words, self.line);
    }

    // The first step of a called slot: it arrives at the line's end.
    fn arrive(&mut self, slot: Slot)
        requires { phases self.old slot.index ≡ Called }
        ensures { Steps self.old slot.index self.new }
    {
        let mut words = self.words;
        P::step(&mut words, slot);
        let mut line = self.line;
        line.push(slot.index());
        self.rewrite(words, line);
    }

    // A step of a slot that waits or leaves.
    fn go_on(&mut self, slot: Slot)
        requires { Arrived (phases self.old slot.index) }
        ensures { Steps self.old slot.index self.new }
    {
        let mut words = self.words;
        P::step(&mut words, slot);
        self.rewrite(words, self.line);
    }

    // The end of a hold: the slot quits the line.
    fn quit(&mut self, slot: Slot)
        requires { phases self.old slot.index ≡ Holds }
        ensures { Finishes self.old slot.index self.new }
    {
        let mut words = self.words;
        P::finish(&mut words, slot);
        let mut line = self.line;
        line.remove(slot.index());
        self.rewrite(words, line);
    }
}

impl<P: Procedures<W>, W: Copy> Lock for LinedLock<P, W> {
    type Label = P::Label;

    ghost phases = { phases };

    ghost classes = { classes };

    ghost bars = { bars };

    ghost labels = { labels };

    ghost opens = { Opens };

    ghost calls = { Calls };

    ghost steps = { Steps };

    ghost finishes = { Finishes };

    ghost opened = { λ n s o j. ap (λ w. P.phases w j) o.words ∙ P.means_begun j };

    ghost called = { λ s i c t lt m. subst (λ w. CalledIn (meant P.phases P.classes P.bars s.words) i c (meant P.phases P.classes P.bars w)) (sym m.words) (P.means_called s.words _ i c s.keeps lt m.idle m.free) };

    ghost stepped = { λ s i t lt m. subst (λ w. Stepped (meant P.phases P.classes P.bars s.words) i (meant P.phases P.classes P.bars w)) (sym m.words) (P.means_stepped s.words _ i s.keeps lt m.moves) };

    ghost finished = { λ s i t lt m. subst (λ w. Finished (meant P.phases P.classes P.bars s.words) i (meant P.phases P.classes P.bars w)) (sym m.words) (P.means_finished s.words _ i s.keeps lt m.holds) };

    fn fresh(_slots: Slots) -> LinedLock<P, W> {
        LinedLock {
            words: P::begin(),
            line: Line::empty(),
            of: PhantomData,
        }
    }

    fn phase(&self, slot: Slot) -> Phase {
        P::phase(&self.words, slot)
    }

    fn class(&self, slot: Slot) -> Class {
        P::class(&self.words, slot)
    }

    fn label(&self, slot: Slot) -> P::Label {
        P::label(&self.words, slot)
    }

    fn is_barred(&self, slot: Slot) -> bool {
        P::is_barred(&self.words, slot)
    }

    fn call(&mut self, slot: Slot, class: Class) -> Result<(), Refusal> {
        match (self.phase(slot), class) {
            (Phase::Idle, Class::Writing) if self.is_barred(slot) => Err(Refusal::SlotBarred),
            (Phase::Idle, _) => {
                self.take_in(slot, class);
                Ok(())
            }
            _ => Err(Refusal::SlotBusy),
        }
    }

    fn step(&mut self, slot: Slot) -> (Phase, P::Label) {
        match self.phase(slot) {
            Phase::Called => self.arrive(slot),
            Phase::Waits | Phase::Leaves => self.go_on(slot),
            Phase::Idle | Phase::Holds => {}
        }
        self.stand(slot)
    }

    fn finish(&mut self, slot: Slot) -> (Phase, P::Label) {
        match self.phase(slot) {
            Phase::Holds => self.quit(slot),
            _ => {}
        }
        self.stand(slot)
    }
}
