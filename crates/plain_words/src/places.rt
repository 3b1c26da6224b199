// The places in the plain lock's procedures where a slot can stand.
ghost use Rattle.std.specs.Prelude.{◌≡◌, Some};
ghost use Rattle.plain_words.specs.Places.{phase_of, class_of, label_of, label_text};

use lock::{Class, Phase};
use std::fmt;

// What is shown of where a slot stands.
#[derive(Clone, Copy, Debug, PartialEq, Eq)]
pub enum Label {
    I,
    P1,
    P2,
    P3,
    P4,
    P5,
    H,
}

impl fmt::Display for Label {
    ghost output = { λ label. Some (label_text label) };

    fn fmt<W: fmt::Write>(&self, f: &mut fmt::Formatter<W>) -> fmt::Result {
        f.write_str(match *self {
            Label::I => "I",
            Label::P1 => "P1",
            Label::P2 => "P2",
            Label::P3 => "P3",
            Label::P4 => "P4",
            Label::P5 => "P5",
            Label::H => "H",
        })
    }
}

// Finer than a label, so that a slot's phase and class are functions of it: P4 is called before its first
// try and waits after it, and a reader and a writer hold apart. Its phase, class and label are this lock's own tables,
// which a function over any lock's standings would have to be handed.
#[derive(Clone, Copy)]
pub enum Standing {
    I,
    P1,
    P2,
    ReaderH,
    P3,
    P4,
    P4Again,
    WriterH,
    P5,
}

impl Standing {
    pub fn phase(self) -> Phase
        ensures { result ≡ phase_of self }
    {
        match self {
            Standing::I => Phase::Idle,
            Standing::P1 | Standing::P4 => Phase::Called,
            Standing::P2 | Standing::P4Again => Phase::Waits,
            Standing::ReaderH | Standing::WriterH => Phase::Holds,
            Standing::P3 | Standing::P5 => Phase::Leaves,
        }
    }

    // The class of the slot's job; an idle slot has none, and answers as a reader.
    pub fn class(self) -> Class
        ensures { result ≡ class_of self }
    {
        match self {
            Standing::I | Standing::P1 | Standing::P2 | Standing::ReaderH | Standing::P3 =>
                Class::Reading,
            Standing::P4 | Standing::P4Again | Standing::WriterH | Standing::P5 => Class::Writing,
        }
    }

    pub fn label(self) -> Label
        ensures { result ≡ label_of self }
    {
        match self {
            Standing::I => Label::I,
            Standing::P1 => Label::P1,
            Standing::P2 => Label::P2,
            Standing::P3 => Label::P3,
            Standing::P4 | Standing::P4Again => Label::P4,
            Standing::P5 => Label::P5,
            Standing::ReaderH | Standing::WriterH => Label::H,
        }
    }
}
