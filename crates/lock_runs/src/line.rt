// One line of a script.
use crate::act::Act;
use slots::Slot;

// A slot and its act.
#[derive(Clone, Copy)]
pub struct Line {
    pub slot: Slot,
    pub act: Act,
}
