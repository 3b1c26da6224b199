// Where a slot can stand in the lock's procedures.
ghost use Rattle.std.specs.Prelude.{◌≡◌, Some};
ghost use Rattle.ticket_words.specs.Places.{phase_of, class_of, label_of, label_text};

use lock::{Class, Phase};
use std::fmt;

#[derive(Clone, Copy, Debug, PartialEq, Eq)]
pub enum Label {
    I,
    T1,
    T2,
    T3,
    T4,
    T5,
    T6,
    H,
}

impl fmt::Display for Label {
    ghost output = { λ label. Some (label_text label) };

    fn fmt<W: fmt::Write>(&self, f: &mut fmt::Formatter<W>) -> fmt::Result {
        f.write_str(match *self {
            Label::I => "I",
            Label::T1 => "T1",
            Label::T2 => "T2",
            Label::T3 => "T3",
            Label::T4 => "T4",
            Label::T5 => "T5",
            Label::T6 => "T6",
            Label::H => "H",
        })
    }
}

// A slot's label, with a reader's H and a writer's told apart, so that a standing tells the class too. It is no label with
// a class beside: each proof by cases would have two cases of it. Its phase, class and label are this lock's own tables,
// which a function over any lock's standings would have to be handed.
#[derive(Clone, Copy)]
pub enum Standing {
    I,
    T1,
    T2,
    T3,
    T4,
    T5,
    T6,
    ReaderH,
    WriterH,
}

impl Standing {
    pub fn phase(self) -> Phase
        ensures { result ≡ phase_of self }
    {
        match self {
            Standing::I => Phase::Idle,
            Standing::T1 | Standing::T4 => Phase::Called,
            Standing::T2 | Standing::T5 => Phase::Waits,
            Standing::ReaderH | Standing::WriterH => Phase::Holds,
            Standing::T3 | Standing::T6 => Phase::Leaves,
        }
    }

    pub fn class(self) -> Class
        ensures { result ≡ class_of self }
    {
        match self {
            Standing::I | Standing::T1 | Standing::T2 | Standing::T3 | Standing::ReaderH =>
                Class::Reading,
            Standing::T4 | Standing::T5 | Standing::T6 | Standing::WriterH => Class::Writing,
        }
    }

    pub fn label(self) -> Label
        ensures { result ≡ label_of self }
    {
        match self {
            Standing::I => Label::I,
            Standing::T1 => Label::T1,
            Standing::T2 => Label::T2,
            Standing::T3 => Label::T3,
            Standing::T4 => Label::T4,
            Standing::T5 => Label::T5,
            Standing::T6 => Label::T6,
            Standing::ReaderH | Standing::WriterH => Label::H,
        }
    }
}
