// The ticket lock's words, beside a line.
ghost use Rattle.ticket_lock.specs.Invariant.{Keeps};
ghost use Rattle.ticket_lock.specs.Kept as kept;
ghost use Rattle.ticket_lock.specs.Laws as laws;
ghost use Rattle.ticket_lock.specs.Lock.{phases, classes, bars, labels};
ghost use Rattle.ticket_lock.specs.Sound as sound;
ghost use Rattle.ticket_lock.specs.Turns as turns;
ghost use Rattle.ticket_words.specs.Steps.{fresh_words, called, stepped, finished};

use lined_lock::{LinedLock, Procedures};
use lock::{Class, Phase};
use slots::Slot;
use ticket_words::{Label, Words};

pub type TicketLock = LinedLock<Ticket, Words>;

// What the ticket lock does to its words, and what ties them to the line.
#[derive(Clone, Copy)]
pub struct Ticket;

// A type of this crate and not the words themselves, since they and the trait belong to crates below. Each function hands on
// to the words, and they alone differ.
impl Procedures<Words> for Ticket {
    type Label = Label;

    ghost phases = { phases };

    ghost classes = { classes };

    ghost bars = { bars };

    ghost labels = { labels };

    ghost begun = { fresh_words };

    ghost called = { called };

    ghost stepped = { stepped };

    ghost finished = { finished };

    ghost keeps = { Keeps };

    ghost keeps_once = { sound.keeps_once };

    ghost keeps_begun = { kept.keeps_begun };

    ghost keeps_few = { kept.keeps_few };

    ghost keeps_called = { λ w l i c h lt e f. kept.keeps_called w l i c h lt e };

    ghost keeps_stepped = { kept.keeps_stepped };

    ghost keeps_finished = { kept.keeps_finished };

    ghost means_begun = { laws.means_begun };

    ghost means_called = { laws.means_called };

    ghost means_stepped = { laws.means_stepped };

    ghost means_finished = { laws.means_finished };

    ghost in_turn = { turns.in_turn };

    fn begin() -> Words {
        Words::fresh()
    }

    fn phase(words: &Words, slot: Slot) -> Phase {
        words.standing(slot).phase()
    }

    fn class(words: &Words, slot: Slot) -> Class {
        words.standing(slot).class()
    }

    fn label(words: &Words, slot: Slot) -> Label {
        words.standing(slot).label()
    }

    fn is_barred(_words: &Words, _slot: Slot) -> bool {
        false
    }

    fn call(words: &mut Words, slot: Slot, class: Class) {
        words.call(slot, class);
    }

    fn step(words: &mut Words, slot: Slot) {
        words.step(slot);
    }

    fn finish(words: &mut Words, slot: Slot) {
        words.finish(slot);
    }
}
