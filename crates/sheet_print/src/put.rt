// Answers into a handed output.
ghost use Rattle.std.specs.Prelude.{◌+◌, ◌≤◌, length, decimal};
ghost use Rattle.sheet_print.specs.Fronts.{Puts};
ghost use Rattle.sheet_print.specs.Shown.{shown, Prints};

use crate::answer::Answer;
use crate::front::Front;
use itoa::Buffer;
use refusal::Refusal;

// No printed line is longer, so an output of this size takes any.
pub const ROOM: usize = 2_048;

// Puts the answer's line at the front of the output, and answers its length.
pub fn print(answer: Answer, out: &mut [u8]) -> Result<usize, Refusal>
    ensures { Prints answer out.old result out.new }
{
    if out.len() < ROOM {
        return Err(Refusal::OutputShort);
    }
    let mut front = Front { out, end: 0 };
    front.line(answer);
    Ok(front.end)
}

impl Front<'_> {
    // No `Display`: of `write!` it is known what a writer holds after an `Ok`, and not that there is one where there is room.
    fn line(&mut self, answer: Answer)
        requires { self.old.end + 30 ≤ length self.old.out.now }
        ensures { Puts self.old (shown answer) self.new }
    {
        match answer {
            Answer::Opened { slots } => {
                self.text(b"(open ");
                self.number(slots);
            }
            Answer::Fault { line, number } => {
                self.text(b"(fault ");
                self.number(line);
                self.text(b" ");
                self.number(number);
            }
        }
        self.text(b")\n");
    }

    fn text(&mut self, text: &[u8])
        requires { self.old.end + length text.now ≤ length self.old.out.now }
        ensures { Puts self.old text.now self.new }
    {
        let end = self.end + text.len();
        self.out[self.end..end].copy_from_slice(text);
        self.end = end;
    }

    // The number's digits, 10 at most.
    fn number(&mut self, n: u32)
        requires { self.old.end + 10 ≤ length self.old.out.now }
        ensures short { self.new.end ≤ self.old.end + 10 }
        ensures put { Puts self.old (decimal n) self.new }
    {
        self.text(Buffer::new().format(n).as_bytes());
    }
}
