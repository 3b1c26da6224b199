// The queue lock's words, beside a line.
ghost use Rattle.queue_lock.specs.InTurn as turns;
ghost use Rattle.queue_lock.specs.Keeps as kept;
ghost use Rattle.queue_lock.specs.Laws as laws;
ghost use Rattle.queue_lock.specs.Lock.{phases, classes, bars, labels};
ghost use Rattle.queue_lock.specs.Tended as tended;
ghost use Rattle.queue_lock.specs.Tended.{Keeps};
ghost use Rattle.queue_words.specs.Steps.{fresh_words, called, stepped, finished};

use lined_lock::{LinedLock, Procedures};
use lock::{Class, Phase};
use queue_words::{Label, Words};
use slots::Slot;

pub type QueueLock = LinedLock<Queue, Words>;

// What the queue lock does to its words, and what ties them to the line.
#[derive(Clone, Copy)]
pub struct Queue;

// A type of this crate and not the words themselves, since they and the trait belong to crates below. Each function hands on
// to the words, and they alone differ.
impl Procedures<Words> for Queue {
    type Label = Label;

    ghost phases = { phases };

    ghost classes = { classes };

    ghost bars = { bars };

    ghost labels = { labels };

    ghost begun = { fresh_words };

    ghost called = { called };

    ghost stepped = { stepped };

    ghost finished = { finished };

    ghost keeps = { Keeps };

    ghost keeps_once = { tended.keeps_once };

    ghost keeps_begun = { kept.keeps_begun };

    ghost keeps_few = { kept.keeps_few };

    ghost keeps_called = { kept.keeps_called };

    ghost keeps_stepped = { kept.keeps_stepped };

    ghost keeps_finished = { kept.keeps_finished };

    ghost means_begun = { laws.means_begun };

    ghost means_called = { laws.means_called };

    ghost means_stepped = { laws.means_stepped };

    ghost means_finished = { laws.means_finished };

    ghost in_turn = { turns.in_turn };

    fn begin() -> Words {
        Words::fresh()
    }

    fn phase(words: &Words, slot: Slot) -> Phase {
        words.standing(slot.index()).phase()
    }

    fn class(words: &Words, slot: Slot) -> Class {
        words.standing(slot.index()).class()
    }

    fn label(words: &Words, slot: Slot) -> Label {
        words.standing(slot.index()).label()
    }

    fn is_barred(words: &Words, slot: Slot) -> bool {
        words.is_barred(slot.index())
    }

    fn call(words: &mut Words, slot: Slot, class: Class) {
        words.call(slot.index(), class);
    }

    fn step(words: &mut Words, slot: Slot) {
        words.step(slot.index());
    }

    fn finish(words: &mut Words, slot: Slot) {
        words.finish(slot.index());
    }
}
