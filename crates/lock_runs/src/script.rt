// The text of a script's line: one act of a slot.
ghost use Rattle.lock_runs.specs.Scripts.{Lettered, Numbered, Reads};

use crate::act::Act;
use crate::line::Line;
use lock::Class;
use slots::Slot;

// A letter, a blank and a slot.
pub fn read_line(text: &[u8]) -> Option<Line>
    ensures { Reads text.now result }
{
    match text {
        [letter, b' ', digits @ ..] => Some(Line {
            slot: Slot::new(read_index(digits)?)?,
            act: read_act(*letter)?,
        }),
        _ => None,
    }
}

// A slot's index is 0 to 31, with no leading zero. By patterns, since `parse` would take a sign and zeros too.
fn read_index(digits: &[u8]) -> Option<usize>
    ensures { Numbered digits.now result }
{
    match digits {
        [d @ b'0'..=b'9'] => Some((*d - b'0') as usize),
        [b'1', d @ b'0'..=b'9'] => Some((*d - b'0') as usize + 10),
        [b'2', d @ b'0'..=b'9'] => Some((*d - b'0') as usize + 20),
        [b'3', d @ b'0'..=b'1'] => Some((*d - b'0') as usize + 30),
        _ => None,
    }
}

// No `TryFrom`: its error would say no more than `None`.
fn read_act(letter: u8) -> Option<Act>
    ensures { Lettered letter result }
{
    match letter {
        b'r' => Some(Act::Call(Class::Reading)),
        b'w' => Some(Act::Call(Class::Writing)),
        b's' => Some(Act::Step),
        b'f' => Some(Act::Finish),
        _ => None,
    }
}
