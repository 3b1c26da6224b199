// The words in which a lock's meaning is told.
ghost use Rattle.std.specs.Prelude.{◌≡◌, Some};
ghost use Rattle.lock.specs.Phases.{phase_text};

use std::fmt;

// Where a slot's job stands with the lock.
#[derive(Clone, Copy, Debug, PartialEq, Eq)]
pub enum Phase {
    Idle,
    Called,
    Waits,
    Holds,
    Leaves,
}

impl Phase {
    // The word that is printed of it.
    pub fn name(self) -> &'static str
        ensures { result.now ≡ phase_text self }
    {
        match self {
            Phase::Idle => "idle",
            Phase::Called => "called",
            Phase::Waits => "waits",
            Phase::Holds => "holds",
            Phase::Leaves => "leaves",
        }
    }
}

impl fmt::Display for Phase {
    ghost output = { λ phase. Some (phase_text phase) };

    fn fmt<W: fmt::Write>(&self, f: &mut fmt::Formatter<W>) -> fmt::Result {
        f.write_str(self.name())
    }
}

// What a job wants of the book.
#[derive(Clone, Copy, Debug, PartialEq, Eq)]
pub enum Class {
    Reading,
    Writing,
}
