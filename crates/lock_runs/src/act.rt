// What a script asks of a lock, and what the lock answers.
ghost use Rattle.std.specs.Prelude.{◌≡◌, Some};
ghost use Rattle.lock.specs.Phases.{phase_text};
ghost use Rattle.lock_runs.specs.Acts.{Acted, answered, answer_text};

use lock::{Class, Lock, Phase};
use slots::Slot;
use std::fmt;

#[derive(Clone, Copy)]
pub enum Act {
    Call(Class),
    Step,
    Finish,
}

#[derive(Clone, Copy)]
pub enum Answer {
    Accepted,
    // With the refusal's number. It is no `Refusal`, since any number can be printed.
    Refused(u32),
    Stands(Phase),
}

// A slot does what a script asks.
pub fn perform<L: Lock>(lock: &mut L, slot: Slot, act: Act) -> Answer
    ensures answer { result ≡ answered L.Lock lock.old slot.index act lock.new }
    ensures left { Acted L.Lock lock.old slot.index act lock.new }
{
    match act {
        Act::Call(class) => match lock.call(slot, class) {
            Ok(()) => Answer::Accepted,
            Err(e) => Answer::Refused(e.number()),
        },
        Act::Step => Answer::Stands(lock.step(slot).0),
        Act::Finish => Answer::Stands(lock.finish(slot).0),
    }
}

// What a phase is printed as, for a caller without a writer.
pub fn phase_name(phase: Phase) -> &'static str
    ensures { result.now ≡ phase_text phase }
{
    phase.name()
}

impl fmt::Display for Answer {
    ghost output = { λ a. Some (answer_text a) };

    fn fmt<W: fmt::Write>(&self, f: &mut fmt::Formatter<W>) -> fmt::Result {
        match *self {
            Answer::Accepted => write!(f, "ok"),
            Answer::Refused(number) => write!(f, "{number}"),
            Answer::Stands(phase) => write!(f, "{phase}"),
        }
    }
}
