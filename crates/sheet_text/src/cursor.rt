// Takes a line's parts one at a time.
ghost use Rattle.std.specs.Prelude.{ℕ, List, [], ◌∷◌, Decides, MatchOption};
ghost use Rattle.sheet_text.specs.Parts.{closing, word, numeral, ending};
ghost use Rattle.sheet_text.specs.Steps.{Left, Next, NotNext, Past, marked};

use super::token::{Mark, Token};

// A place in a line: the bytes from `at` on are left, and where it is tight no blank is due before the next part.
// The whole line and not what is left of it, since a token says at which offset of the line it begins.
#[derive(Clone, Copy)]
pub struct Cursor<'a> {
    pub line: &'a [u8],
    pub at: usize,
    pub tight: bool,
}

impl<'a> Cursor<'a> {
    // After the mark.
    pub fn past(self, mark: Mark) -> Option<Cursor<'a>>
        ensures { Past self.entry (marked mark) result }
    {
        let (t, after) = self.next()?;
        match (mark, t) {
            (Mark::Open, Token::Open(_))
            | (Mark::Close, Token::Close(_))
            | (Mark::End, Token::End(_)) => Some(after),
            _ => None,
        }
    }

    // A word, and the cursor after it. A closure shared with `number` would hold these same arms.
    pub fn word(self) -> Option<(&'a [u8], Cursor<'a>)>
        ensures { MatchOption result ((w : List ℕ) → NotNext self.entry (word w)) (λ x. Next self.entry (word x.0.now) x.1) }
    {
        match self.next()? {
            (Token::Word(w, _), after) => Some((w, after)),
            _ => None,
        }
    }

    // A number, and the cursor after it.
    pub fn number(self) -> Option<(u32, Cursor<'a>)>
        ensures { MatchOption result ((n : ℕ) → NotNext self.entry (numeral n)) (λ x. Next self.entry (numeral x.0) x.1) }
    {
        match self.next()? {
            (Token::Number(n, _, _), after) => Some((n, after)),
            _ => None,
        }
    }

    // Whether a closing bracket and the line's end are all that is left.
    pub fn closes(self) -> bool
        ensures { Decides result (Left self.entry (closing ∷ ending ∷ [])) }
    {
        self.past(Mark::Close)
            .and_then(|last| last.past(Mark::End))
            .is_some_and(|past| past.at >= past.line.len())
    }
}
