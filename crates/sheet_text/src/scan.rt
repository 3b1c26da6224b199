// Cuts the next part from a line.
ghost use Rattle.std.specs.Prelude.{◌≡◌, ◌+◌, ◌^◌, ◌<◌, true, ◌++◌, length, MatchOption};
ghost use Rattle.std.specs.Int.{IsInRange};
ghost use Rattle.std.specs.List.{AllByRecursion};
ghost use Rattle.sheet_text.specs.Parts.{Part, is_opening, is_spaced};
ghost use Rattle.sheet_text.specs.Cuts.{Stops, FirstOf, ValueOf, part};
ghost use Rattle.sheet_text.specs.Steps.{Next, NotNext, Stands};

use super::cursor::Cursor;
use super::token::Token;

// The bytes from low to high at the front, and the rest.
fn run(s: &[u8], low: u8, high: u8) -> (&[u8], &[u8])
    ensures whole { s.now ≡ result.0.now ++ result.1.now }
    ensures all { AllByRecursion (IsInRange low high) result.0.now }
    ensures stops { Stops low high result.1.now }
{
    let len = s.iter().take_while(|b| (low..=high).contains(*b)).count();
    s.split_at(len)
}

// The number that digits write, if they are its decimal form and it fits.
fn value(ds: &[u8]) -> Option<u32>
    requires { AllByRecursion (IsInRange 48 57) ds.now }
    ensures { ValueOf ds.now result }
{
    match ds {
        [] | [b'0', _, ..] => None,
        _ => std::str::from_utf8(ds).ok()?.parse().ok(),
    }
}

// The part that begins with the first byte, and the rest.
fn token<'a>(s: &'a [u8], at: usize) -> Option<(Token<'a>, &'a [u8])>
    ensures { FirstOf true s.now at result }
{
    match s {
        [b'(', rest @ ..] => Some((Token::Open(at), rest)),
        [b')', rest @ ..] => Some((Token::Close(at), rest)),
        [b'\n', rest @ ..] => Some((Token::End(at), rest)),
        [b'a'..=b'z', ..] => {
            let (word, rest) = run(s, b'a', b'z');
            Some((Token::Word(word, at), rest))
        }
        [b'0'..=b'9', ..] => {
            let (digits, rest) = run(s, b'0', b'9');
            Some((Token::Number(value(digits)?, digits, at), rest))
        }
        _ => None,
    }
}

impl Token<'_> {
    // Whether a blank sets the part off from the one before.
    fn is_spaced(&self) -> bool
        ensures { result ≡ is_spaced (part self.now) }
    {
        !matches!(self, Token::Close(_) | Token::End(_))
    }

    fn is_open(&self) -> bool
        ensures { result ≡ is_opening (part self.now) }
    {
        matches!(self, Token::Open(_))
    }
}

// What sets the parts of a line off from one another.
const BLANK: u8 = b' ';

// The part at the front, after a blank where one is due, and the rest.
fn front<'a>(s: &'a [u8], tight: bool, at: usize) -> Option<(Token<'a>, &'a [u8])>
    requires { at + length s.now < 2 ^ 64 }
    ensures { FirstOf tight s.now at result }
{
    if tight {
        return token(s, at);
    }
    match s {
        [BLANK, rest @ ..] => token(rest, at + 1).filter(|(t, _)| t.is_spaced()),
        _ => token(s, at).filter(|(t, _)| !t.is_spaced()),
    }
}

impl<'a> Cursor<'a> {
    // The next part, whatever it is, and the cursor after it.
    pub fn next(self) -> Option<(Token<'a>, Cursor<'a>)>
        ensures { MatchOption result ((p : Part) → NotNext self.entry p) (λ x. Next self.entry (part x.0) x.1 × Stands self.entry.line.now x.0) }
    {
        let left = self.line.get(self.at..)?;
        let (t, rest) = front(left, self.tight, self.at)?;
        let after = Cursor {
            line: self.line,
            at: self.line.len() - rest.len(),
            tight: t.is_open(),
        };
        Some((t, after))
    }
}
