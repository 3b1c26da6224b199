// Where a slot stands in the lock's procedures.
ghost use Rattle.std.specs.Prelude.{◌≡◌, Some};
ghost use Rattle.queue_words.specs.Standings.{phase_of, class_of, label_of, label_text};

use lock::{Class, Phase};
use std::fmt;

// W is start_write, V end_write, R start_read and E end_read: one label for each access. I is idle, H holds.
#[derive(Clone, Copy, Debug, PartialEq, Eq)]
pub enum Label {
    I,
    W1,
    W2,
    W3,
    W4,
    W5,
    W6,
    W7,
    W8,
    V1,
    V2,
    V3,
    V4,
    V5,
    V6,
    R1,
    R2,
    R3,
    R4,
    R5,
    R6,
    R7,
    R8,
    R9,
    R10,
    R11,
    R12,
    R13,
    E1,
    E2,
    E3,
    E4,
    E5,
    E6,
    E7,
    E8,
    E9,
    E10,
    H,
}

impl fmt::Display for Label {
    ghost output = { λ label. Some (label_text label) };

    fn fmt<W: fmt::Write>(&self, f: &mut fmt::Formatter<W>) -> fmt::Result {
        f.write_str(match *self {
            Label::I => "I",
            Label::W1 => "W1",
            Label::W2 => "W2",
            Label::W3 => "W3",
            Label::W4 => "W4",
            Label::W5 => "W5",
            Label::W6 => "W6",
            Label::W7 => "W7",
            Label::W8 => "W8",
            Label::V1 => "V1",
            Label::V2 => "V2",
            Label::V3 => "V3",
            Label::V4 => "V4",
            Label::V5 => "V5",
            Label::V6 => "V6",
            Label::R1 => "R1",
            Label::R2 => "R2",
            Label::R3 => "R3",
            Label::R4 => "R4",
            Label::R5 => "R5",
            Label::R6 => "R6",
            Label::R7 => "R7",
            Label::R8 => "R8",
            Label::R9 => "R9",
            Label::R10 => "R10",
            Label::R11 => "R11",
            Label::R12 => "R12",
            Label::R13 => "R13",
            Label::E1 => "E1",
            Label::E2 => "E2",
            Label::E3 => "E3",
            Label::E4 => "E4",
            Label::E5 => "E5",
            Label::E6 => "E6",
            Label::E7 => "E7",
            Label::E8 => "E8",
            Label::E9 => "E9",
            Label::E10 => "E10",
            Label::H => "H",
        })
    }
}

// A slot's label, with a reader's H and a writer's told apart, so that a standing tells the class too. It is no label with
// a class beside: each proof by cases would have two cases of it. Its phase, class and label are this lock's own tables,
// which a function over any lock's standings would have to be handed.
#[derive(Clone, Copy)]
pub enum Standing {
    I,
    W1,
    W2,
    W3,
    W4,
    W5,
    W6,
    W7,
    W8,
    WriterH,
    V1,
    V2,
    V3,
    V4,
    V5,
    V6,
    R1,
    R2,
    R3,
    R4,
    R5,
    R6,
    R7,
    R8,
    R9,
    R10,
    R11,
    R12,
    R13,
    ReaderH,
    E1,
    E2,
    E3,
    E4,
    E5,
    E6,
    E7,
    E8,
    E9,
    E10,
}

impl Standing {
    pub fn phase(self) -> Phase
        ensures { result ≡ phase_of self }
    {
        match self {
            Standing::I => Phase::Idle,
            Standing::W1 | Standing::R1 => Phase::Called,
            Standing::WriterH | Standing::ReaderH => Phase::Holds,
            Standing::V1
            | Standing::V2
            | Standing::V3
            | Standing::V4
            | Standing::V5
            | Standing::V6
            | Standing::E1
            | Standing::E2
            | Standing::E3
            | Standing::E4
            | Standing::E5
            | Standing::E6
            | Standing::E7
            | Standing::E8
            | Standing::E9
            | Standing::E10 => Phase::Leaves,
            Standing::W2
            | Standing::W3
            | Standing::W4
            | Standing::W5
            | Standing::W6
            | Standing::W7
            | Standing::W8
            | Standing::R2
            | Standing::R3
            | Standing::R4
            | Standing::R5
            | Standing::R6
            | Standing::R7
            | Standing::R8
            | Standing::R9
            | Standing::R10
            | Standing::R11
            | Standing::R12
            | Standing::R13 => Phase::Waits,
        }
    }

    pub fn class(self) -> Class
        ensures { result ≡ class_of self }
    {
        match self {
            Standing::W1
            | Standing::W2
            | Standing::W3
            | Standing::W4
            | Standing::W5
            | Standing::W6
            | Standing::W7
            | Standing::W8
            | Standing::WriterH
            | Standing::V1
            | Standing::V2
            | Standing::V3
            | Standing::V4
            | Standing::V5
            | Standing::V6 => Class::Writing,
            Standing::I
            | Standing::R1
            | Standing::R2
            | Standing::R3
            | Standing::R4
            | Standing::R5
            | Standing::R6
            | Standing::R7
            | Standing::R8
            | Standing::R9
            | Standing::R10
            | Standing::R11
            | Standing::R12
            | Standing::R13
            | Standing::ReaderH
            | Standing::E1
            | Standing::E2
            | Standing::E3
            | Standing::E4
            | Standing::E5
            | Standing::E6
            | Standing::E7
            | Standing::E8
            | Standing::E9
            | Standing::E10 => Class::Reading,
        }
    }

    pub fn label(self) -> Label
        ensures { result ≡ label_of self }
    {
        match self {
            Standing::WriterH | Standing::ReaderH => Label::H,
            Standing::I => Label::I,
            Standing::W1 => Label::W1,
            Standing::W2 => Label::W2,
            Standing::W3 => Label::W3,
            Standing::W4 => Label::W4,
            Standing::W5 => Label::W5,
            Standing::W6 => Label::W6,
            Standing::W7 => Label::W7,
            Standing::W8 => Label::W8,
            Standing::V1 => Label::V1,
            Standing::V2 => Label::V2,
            Standing::V3 => Label::V3,
            Standing::V4 => Label::V4,
            Standing::V5 => Label::V5,
            Standing::V6 => Label::V6,
            Standing::R1 => Label::R1,
            Standing::R2 => Label::R2,
            Standing::R3 => Label::R3,
            Standing::R4 => Label::R4,
            Standing::R5 => Label::R5,
            Standing::R6 => Label::R6,
            Standing::R7 => Label::R7,
            Standing::R8 => Label::R8,
            Standing::R9 => Label::R9,
            Standing::R10 => Label::R10,
            Standing::R11 => Label::R11,
            Standing::R12 => Label::R12,
            Standing::R13 => Label::R13,
            Standing::E1 => Label::E1,
            Standing::E2 => Label::E2,
            Standing::E3 => Label::E3,
            Standing::E4 => Label::E4,
            Standing::E5 => Label::E5,
            Standing::E6 => Label::E6,
            Standing::E7 => Label::E7,
            Standing::E8 => Label::E8,
            Standing::E9 => Label::E9,
            Standing::E10 => Label::E10,
        }
    }
}
