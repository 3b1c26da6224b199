// Reads a line as a form.
ghost use Rattle.std.specs.Prelude.{◌<◌, length, codes};
ghost use Rattle.sheet_text.specs.Forms.{NamedBy, lock_word, kind_word, ReadAs};
ghost use Rattle.sheet_text.specs.Steps.{ArgsOf, FormAt};

use super::cursor::Cursor;
use super::form::{Form, KindName, LockName};
use super::token::Mark;
use refusal::Refusal;

impl TryFrom<&[u8]> for LockName {
    type Error = Refusal;

    ghost try_from_gives = { λ w r. NamedBy lock_word w.now r };

    fn try_from(word: &[u8]) -> Result<Self, Refusal> {
        match word {
            b"queue" => Ok(LockName::Queue),
            b"ticket" => Ok(LockName::Ticket),
            b"plain" => Ok(LockName::Plain),
            _ => Err(Refusal::LineNotWellFormed),
        }
    }
}

impl TryFrom<&[u8]> for KindName {
    type Error = Refusal;

    ghost try_from_gives = { λ w r. NamedBy kind_word w.now r };

    fn try_from(word: &[u8]) -> Result<Self, Refusal> {
        match word {
            b"leg" => Ok(KindName::Leg),
            b"station" => Ok(KindName::Station),
            _ => Err(Refusal::LineNotWellFormed),
        }
    }
}

// What follows the word `open`.
fn open_args(from: Cursor) -> Option<Form>
    ensures { ArgsOf (codes "open") from.entry result }
{
    let (w, rest) = from.word()?;
    let lock = LockName::try_from(w).ok()?;
    let (slots, rest) = rest.number()?;
    let (places, rest) = rest.number()?;
    let (v, rest) = rest.word()?;
    let kind = KindName::try_from(v).ok()?;
    rest.closes().then_some(Form::Open {
        lock,
        slots,
        places,
        kind,
    })
}

// What follows the word of any form. Its first letter chooses the form.
fn args_of(w: &[u8], from: Cursor) -> Option<Form>
    requires { 0 < length w.now }
    ensures { ArgsOf w.now from.entry result }
{
    match w[0] as char {
        'o' if matches!(w, b"open") => open_args(from),
        _ => None,
    }
}

// The form that all of what is left makes.
fn form(from: Cursor) -> Option<Form>
    ensures { FormAt from.entry result }
{
    let rest = from.past(Mark::Open)?;
    let (w, rest) = rest.word()?;
    args_of(w, rest)
}

pub fn read_line(line: &[u8]) -> Result<Form, Refusal>
    ensures { ReadAs line.now result }
{
    let start = Cursor {
        line,
        at: 0,
        tight: true,
    };
    form(start).ok_or(Refusal::LineNotWellFormed)
}
