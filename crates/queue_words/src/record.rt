// What the lock keeps of a slot: its record, its registers, and where it stands.
ghost use Rattle.std.specs.Prelude.{◌≡◌};
ghost use Rattle.queue_words.specs.Records.{unused};

use crate::standing::Standing;
use lock::Class;

// The class of the slot behind, as far as a record says. No option of a class: it is a half of the published state word.
#[derive(Clone, Copy, PartialEq, Eq)]
pub enum Successor {
    Nobody,
    Reader,
    Writer,
}

// The state word: whether the slot is blocked, and its successor class.
#[derive(Clone, Copy, PartialEq, Eq)]
pub struct State {
    pub blocked: bool,
    pub successor: Successor,
}

// Class, next and state are the words that other slots can reach; pred and w are the slot's own registers.
#[derive(Clone, Copy)]
pub struct Record {
    pub standing: Standing,
    pub class: Class,
    pub next: Option<usize>,
    pub state: State,
    pub pred: Option<usize>,
    pub w: Option<usize>,
}

impl Record {
    // The record of a slot that has had no job.
    pub fn unused() -> Record
        ensures { result ≡ unused }
    {
        Record {
            standing: Standing::I,
            class: Class::Reading,
            next: None,
            state: State {
                blocked: false,
                successor: Successor::Nobody,
            },
            pred: None,
            w: None,
        }
    }
}
